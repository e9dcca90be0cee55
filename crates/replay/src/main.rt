// Writes the listing of a trace, and says how it ended: done, refused where the listing is the line of a refusal, or failed where the
// trace can't be read or the listing can't be written.
#![tactic(auto)]

use command::{Ending, Told};

// Writes the listing of a file.
fn list(rt: &impl Print, file: &[u8]) -> Result<Ending, Told> {
    let mut out = io::large_buffer();
    let listed = listing::listing(file, &mut out);
    command::write_all(rt, &out[..listed.length])?;
    Ok(replay_end::end_of(file))
}

// A trace has at most 60,800 bytes: of a longer file the first 65,536 are refused as the whole of it is.
fn main(rt: HostRuntime) {
    let mut file = io::large_buffer();
    command::run_on_input(&rt, &mut file, |rt, file| list(rt, file));
}
