// Runs a stored file for each argument: the file is read and written again, and its listing is written out. Files 0 to 23 have every
// kind of fault, 24 to 29 have filler bytes that are not 0, 30 and 31 are the longest, 32 to 51 have refused events among the
// others, and in the rest every event is accepted.
#![tactic(auto)]

ghost use Rattle.io.specs.Counts.{IsPrefixLen};

use std::env::{Env, FillError};
use std::rt::Files;
use vector_lines::{line, text};

// The whole of the file that argument i names, where it fits the buffer; a file that can't be opened is named on the error output.
fn stored(rt: &(impl Env + Files + Input), i: usize, file: &mut [u8]) -> usize
    ensures { IsPrefixLen result file.new }
{
    command::read_input(rt, i, file).unwrap_or(0)
}

// Reads a file and writes what was read into a cleared buffer, which is compared whole: with the file where it is accepted, and with
// the cleared buffer where it is refused.
fn rewritten(rt: &(impl Env + Files + Input), i: usize, name: &[u8]) {
    let mut file = io::large_buffer();
    let mut out = io::large_buffer();
    let n = stored(rt, i, &mut file);
    let w = trace_copy::copy(&file[..n], &mut out);
    line(name, u64::from(w.status));
    let cleared = io::large_buffer();
    if w.status == 0 {
        if check::same(&file, &out) {
            text(b"same\n");
        }
        return;
    }
    if check::same(&cleared, &out) {
        text(b"unchanged\n");
    }
}

// The listing of a file.
fn listed(rt: &(impl Env + Files + Input), i: usize) {
    let mut file = io::large_buffer();
    let mut out = io::large_buffer();
    let n = stored(rt, i, &mut file);
    let r = listing::listing(&file[..n], &mut out);
    text(&out[..r.length]);
}

// Runs the file that argument i names, and answers whether there is such an argument.
fn argument(rt: &(impl Env + Files + Input), i: usize) -> bool {
    let mut name = [0u8; 64];
    match rt.arg(i, &mut name) {
        Ok(n) => {
            rewritten(rt, i, &name[..n]);
            listed(rt, i);
        }
        Err(FillError::NotPresent) => return false,
        Err(e) => command::fail(b"argument", &command::argument_error(e)),
    }
    true
}

fn main(rt: HostRuntime) {
    for i in 1..usize::MAX {
        if !argument(&rt, i) {
            return;
        }
    }
}
