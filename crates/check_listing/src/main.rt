// Says whether a listing is that of a trace: `yes`; or `line` and the number of the first line that differs, is missing or is surplus, and
// then both lines on the standard error; or `refused` and the number of the trace's refusal.
#![tactic(auto)]

ghost use Rattle.std.specs.Prelude.{◌≡◌, IfOk};
ghost use Rattle.listing_check.specs.Verdict.{verdict_of, checked_of};

mod lines; // lines.rt: a line as a person sees it

use command::Told;
use listing_check::Verdict;
use std::env::Env;
use std::rt::Files;

// A word and a number as a line of the standard output.
fn say(rt: &impl Print, word: &[u8], n: u64) -> Result<(), Told> {
    command::write_all(rt, word)?;
    let mut digits = [0u8; 20];
    let length = io::decimal(n, &mut digits);
    command::write_all(rt, &digits[..length])?;
    command::write_all(rt, b"\n")
}

// The verdict as a line of the standard output.
fn say_verdict(rt: &impl Print, v: Verdict) -> Result<(), Told> {
    match v {
        Verdict::Same => command::write_all(rt, b"yes\n"),
        Verdict::Differs(line) => say(rt, b"line ", line as u64),
        Verdict::Refused(status) => say(rt, b"refused ", u64::from(status)),
    }
}

// Shows the line that differs, of our listing and of theirs.
fn show_both(file: &[u8], theirs: &[u8], line: usize) {
    let mut ours = io::large_buffer();
    let listed = listing::listing(file, &mut ours);
    let length = listed.length;
    lines::show(b"ours:   ", &ours[..length], line);
    lines::show(b"theirs: ", theirs, line);
}

// Gives the verdict, and answers its number: 0 is yes, 1 a line and 2 a refusal.
fn judge(rt: &impl Print, file: &[u8], theirs: &[u8]) -> Result<u8, Told>
    ensures { IfOk result (λ number. number ≡ (checked_of (verdict_of file.now theirs.now)).verdict) }
{
    let v = listing_verdict::verdict_of(file, theirs);
    say_verdict(rt, v)?;
    let checked = listing_check::checked_of(v);
    if checked.verdict == 1 {
        show_both(file, theirs, checked.line);
    }
    Ok(checked.verdict)
}

// Judges the trace and the listing that the arguments name. A trace has at most 60,800 bytes and its listing at most 54,000: of a longer
// file the first 65,536 have the verdict that all of it has (`LongIsRefused`, `StartDecides`).
fn judge_inputs(rt: &(impl Env + Files + Input + Print)) -> Result<u8, Told> {
    let mut file = io::large_buffer();
    let length = command::read_input(rt, 1, &mut file)?;
    let mut theirs = io::large_buffer();
    let other_length = command::read_input(rt, 2, &mut theirs)?;
    judge(rt, &file[..length], &theirs[..other_length])
}

// Ends with the verdict's number, or as one that failed.
fn main(rt: HostRuntime) {
    command::end(judge_inputs(&rt).unwrap_or(command::FAILED));
}
