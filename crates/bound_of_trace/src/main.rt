// Writes what the sporadic threads of a trace's table can take at their upper priority in so many ticks, and says how it ended: done, refused
// where there is the line of a refusal alone, or failed where the second argument is no number of ticks, the trace can't be read or the
// lines can't be written.
#![tactic(auto)]

use bound_listing::LARGEST;
use command::{Ending, STDERR_FILENO, Told};
use std::env::Env;

// The one number that a text with a newline after it says.
fn length_in(text: &[u8]) -> Option<u64> {
    let values = text_numbers::numbers_at(text, 0, &[u64::MAX])?;
    Some(values[0])
}

// The number that the first n bytes of a buffer are.
fn length_of(text: &mut [u8], n: usize) -> Option<u64> {
    if text.len() <= n {
        return None;
    }
    text[n] = b'\n';
    length_in(&text[..n + 1])
}

// The number that argument i is, in decimal and without leading zeros.
fn length_given(rt: &impl Env, i: usize) -> Option<u64> {
    let mut text = io::buffer();
    let n = rt.arg(i, &mut text).ok()?;
    length_of(&mut text, n)
}

// Writes the lines of a file.
fn list(rt: &impl Print, file: &[u8], ticks: u64) -> Result<Ending, Told> {
    let mut out = [0u8; LARGEST];
    let length = bound_listing::bound_listing(file, ticks, &mut out);
    command::write_all(rt, &out[..length])?;
    Ok(replay_end::end_of(file))
}

// A trace has at most 60,800 bytes: of a longer file the first 65,536 are refused as the whole of it is.
fn main(rt: HostRuntime) {
    let Some(ticks) = length_given(&rt, 2) else {
        io::write_all(
            STDERR_FILENO,
            b"thawonlai: bound: L is a number of ticks up to 18446744073709551615, in decimal and without leading zeros\n",
        );
        io::write_all(STDERR_FILENO, b"usage: thawonlai bound TRACE L\n");
        command::end(command::FAILED);
        return;
    };
    let mut file = io::large_buffer();
    command::run_on_input(&rt, &mut file, |rt, file| list(rt, file, ticks));
}
