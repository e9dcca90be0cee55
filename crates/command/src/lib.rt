// What every program that `bin/thawonlai` starts does: it reads the inputs that its arguments name, and says how it ended. A program
// writes how it ended to descriptor 3, and `bin/thawonlai` exits with it.
#![tactic(auto)]

ghost use Rattle.std.specs.Prelude.{◌≡◌, IfOk};
ghost use Rattle.io.specs.Counts.{IsPrefixLen};
ghost use Rattle.command.specs.Ends.{number_of, status_of};

use std::env::{Env, FillError};
use std::fs;
use std::io::{Error, Read, Write};
use std::rt::Files;
use std::str::from_utf8;

// How a command ends that has not failed.
#[derive(Clone, Copy, Debug, PartialEq, Eq)]
pub enum Ending {
    Done = 0,
    Refused = 1,
}

impl From<Ending> for u8 {
    ghost from_gives = { λ ending status. status ≡ number_of ending };

    fn from(ending: Ending) -> u8 {
        ending as u8
    }
}

// A failure that was said on the standard error. A command that failed ends with FAILED.
#[derive(Clone, Copy, Debug, PartialEq, Eq)]
pub struct Told;

pub const FAILED: u8 = 2;

// The standard error.
pub const STDERR_FILENO: i32 = 2;

const STATUS_FILENO: i32 = 3;

// The system's numbers for an argument that is missing, for a name that is too long, and for one that is no text.
const EINVAL: i32 = 22;

const ENAMETOOLONG: i32 = 36;

const EILSEQ: i32 = 84;

// How many bytes of an error's text are its own words: the system's errors end in ` (os error N)`.
fn words(e: &Error, length: usize) -> usize {
    match e.raw_os_error() {
        Some(code) => {
            let mut digits = [0u8; 20];
            let suffix = 12 + io::decimal(u64::from(code.unsigned_abs()), &mut digits);
            length.saturating_sub(suffix)
        }
        None => length,
    }
}

// Writes a line to the standard error: what failed, a colon and why.
pub fn fail(what: &[u8], e: &Error) {
    let mut text = [0u8; 256];
    let mut rest = &mut text[..];
    let _ = write!(rest, "{e}");
    let left = rest.len();
    let told = words(e, text.len().saturating_sub(left));
    let length = told.min(text.len());
    io::write_all(STDERR_FILENO, what);
    io::write_all(STDERR_FILENO, b": ");
    io::write_all(STDERR_FILENO, &text[..length]);
    io::write_all(STDERR_FILENO, b"\n");
}

// Reads an input to its end, or until the buffer is full. Each turn but the last reads at least one byte.
fn read_all<R: Read>(input: &mut R, buffer: &mut [u8]) -> Result<usize, Error>
    ensures { IfOk result (λ n. IsPrefixLen n buffer.new) }
{
    let mut length = 0;
    for _turn in 0..buffer.len() {
        let got = input.read(&mut buffer[length..])?;
        if got == 0 {
            return Ok(length);
        }
        length += got;
    }
    Ok(length)
}

// Says what failed and why.
fn tell(what: &[u8], e: &Error) -> Told {
    fail(what, e);
    Told
}

// The file of this name.
fn open<R: Files>(rt: &R, name: &[u8]) -> Result<R::File, Error> {
    match from_utf8(name) {
        Ok(path) => fs::open(rt, path),
        Err(_) => Err(Error::from_raw_os_error(EILSEQ)),
    }
}

// The file of this name, to its end or until the buffer is full.
fn read_file(rt: &impl Files, name: &[u8], buffer: &mut [u8]) -> Result<usize, Error>
    ensures { IfOk result (λ n. IsPrefixLen n buffer.new) }
{
    let mut file = open(rt, name)?;
    read_all(&mut file, buffer)
}

// Why an argument could not be had.
pub fn argument_error(e: FillError) -> Error {
    match e {
        FillError::NotPresent => Error::from_raw_os_error(EINVAL),
        FillError::TooLong => Error::from_raw_os_error(ENAMETOOLONG),
    }
}

// Reads the input that argument i names, to its end or until the buffer is full, and answers how many bytes it read: a file, or the
// standard input where the argument is `-`.
pub fn read_input(
    rt: &(impl Env + Files + std::io::Input),
    i: usize,
    buffer: &mut [u8],
) -> Result<usize, Told>
    ensures { IfOk result (λ n. IsPrefixLen n buffer.new) }
{
    let mut name = io::buffer();
    let length = rt
        .arg(i, &mut name)
        .map_err(|e| tell(b"argument", &argument_error(e)))?;
    let name = &name[..length];
    if name == b"-".as_slice() {
        return read_all(&mut rt.reader(), buffer).map_err(|e| tell(b"standard input", &e));
    }
    read_file(rt, name, buffer).map_err(|e| tell(name, &e))
}

// Writes all of some bytes to the standard output.
pub fn write_all(rt: &impl Print, bytes: &[u8]) -> Result<(), Told> {
    rt.write_all(bytes)
        .map_err(|e| tell(b"standard output", &e))
}

// Says how the program ended. Where descriptor 3 is closed, nobody asked.
pub fn end(status: u8) {
    io::print_decimal(STATUS_FILENO, u64::from(status));
    io::write_all(STATUS_FILENO, b"\n");
}

// The exit status of a command.
pub fn status_of(ended: Result<Ending, Told>) -> u8
    ensures { result ≡ status_of ended }
{
    match ended {
        Ok(ending) => u8::from(ending),
        Err(Told) => FAILED,
    }
}

// Runs a command on the input that argument 1 names, of which the buffer takes the start, and says how it ended.
pub fn run_on_input<
    R: Env + Files + std::io::Input,
    Command: FnOnce(&R, &[u8]) -> Result<Ending, Told>,
>(rt: &R, buffer: &mut [u8], command: Command)
    requires { Command.IsAlwaysCallable command }
{
    let ended = match read_input(rt, 1, buffer) {
        Ok(length) => command(rt, &buffer[..length]),
        Err(e) => Err(e),
    };
    end(status_of(ended));
}

// Says on the standard error that an input is refused, and in which of its lines; a refusal that is no line's has line 0.
pub fn refuse(status: u8, line: usize) {
    io::write_all(STDERR_FILENO, b"refused ");
    io::print_decimal(STDERR_FILENO, u64::from(status));
    io::write_all(STDERR_FILENO, b" line ");
    io::print_decimal(STDERR_FILENO, line as u64);
    io::write_all(STDERR_FILENO, b"\n");
}
