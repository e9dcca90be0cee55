// Writes the trace file of a text, and says how it ended: done, refused, or failed where the text can't be read, is too long or the file
// can't be written. A refusal goes to the standard error, and with it the line at fault.
#![tactic(auto)]

use command::{Ending, STDERR_FILENO, Told};
use text_lines::{line_end, lines_end};

// The longest text that is read.
const LONGEST: usize = 1000000;

// A buffer for it, with one byte more, which shows that a text is longer.
const ROOM: usize = 1000001;

// Writes the line of a text that has a number, from 1; for 0 nothing.
fn show_line(text: &[u8], number: usize) {
    if number == 0 {
        return;
    }
    let start = lines_end(text, number - 1);
    let line = &text[start..line_end(text, start)];
    io::write_all(STDERR_FILENO, line);
    if !line.ends_with(b"\n") {
        io::write_all(STDERR_FILENO, b"\n");
    }
}

// Writes the trace file of a text. It has at most 60,800 bytes.
fn turn(rt: &impl Print, text: &[u8]) -> Result<Ending, Told> {
    if LONGEST < text.len() {
        io::write_all(STDERR_FILENO, b"a text has at most 1000000 bytes\n");
        return Err(Told);
    }
    let mut out = io::large_buffer();
    let made = trace_making::from_text(text, &mut out);
    if made.status != 0 {
        command::refuse(made.status, made.line);
        show_line(text, made.line);
        return Ok(Ending::Refused);
    }
    command::write_all(rt, &out[..made.total])?;
    Ok(Ending::Done)
}

fn room() -> [u8; ROOM] {
    [0u8; ROOM]
}

fn main(rt: HostRuntime) {
    let mut text = room();
    command::run_on_input(&rt, &mut text, |rt, text| turn(rt, text));
}
