// Writes the shares at the end of a trace's replay, and says how it ended: done, refused where there is the line of a refusal alone, or
// failed where the trace can't be read or the lines can't be written.
#![tactic(auto)]

use command::{Ending, Told};
use share_listing::LARGEST;

// Writes the lines of a file.
fn list(rt: &impl Print, file: &[u8]) -> Result<Ending, Told> {
    let mut out = [0u8; LARGEST];
    let length = share_listing::thawonlai_share_listing(file, &mut out);
    command::write_all(rt, &out[..length])?;
    Ok(replay_end::end_of(file))
}

// A trace has at most 60,800 bytes: of a longer file the first 65,536 are refused as the whole of it is.
fn main(rt: HostRuntime) {
    let mut file = io::large_buffer();
    command::run_on_input(&rt, &mut file, |rt, file| list(rt, file));
}
