// Writes the text of a trace file, and says how it ended: done, refused, or failed where the file can't be read or the text can't be
// written. A refusal goes to the standard error.
#![tactic(auto)]

use command::{Ending, Told};

// The longest text of a file: the start line's 27 bytes, 76 for each of 32 threads and 87 for each of 1,500 events.
const LONGEST: usize = 132959;

// Writes the text of a file.
fn turn(rt: &impl Print, file: &[u8]) -> Result<Ending, Told> {
    let mut out = [0u8; LONGEST];
    let made = trace_telling::to_text(file, &mut out);
    if made.status != 0 {
        command::refuse(made.status, made.line);
        return Ok(Ending::Refused);
    }
    command::write_all(rt, &out[..made.total])?;
    Ok(Ending::Done)
}

// A trace has at most 60,800 bytes: of a longer file the first 65,536 are refused as the whole of it is.
fn main(rt: HostRuntime) {
    let mut file = io::large_buffer();
    command::run_on_input(&rt, &mut file, |rt, file| turn(rt, file));
}
