// What the sporadic threads of a trace's table can take at their upper priority, as text.
#![tactic(auto)]

ghost use Rattle.std.specs.Prelude.{◌++◌, ◌+◌, ◌≤◌, length, replicate};
ghost use Rattle.text.specs.Fields.{field, space, newline};
ghost use Rattle.text.specs.Placed.{Put};
ghost use Rattle.listing.specs.Lines.{thread_word, refused_line};
ghost use Rattle.bound_listing.specs.BoundListing.{bound_line, bound_lines, bound_listing, line_most, largest};

use records::{Parameters, SCHED_SPORADIC, THREADS};
use text::put_word;
use text_fields::put_field;

// So many bytes are enough for every file.
pub const LARGEST: usize = 70 * THREADS;

// A line of the word `thread` and three numbers.
fn put_numbers(out: &mut [u8], at: usize, i: u64, most: u64, ticks: u64) -> usize
    requires { at + line_most ≤ length out.old }
    ensures put { Put out.old at (thread_word ++ field i space ++ field most space ++ field ticks newline) out.new result }
    ensures upper_bound { result ≤ at + line_most }
{
    let first = put_word(out, at, b"thread ");
    let second = put_field(out, first, i, b' ');
    let third = put_field(out, second, most, b' ');
    put_field(out, third, ticks, b'\n')
}

// The line of thread i, where it is sporadic.
fn put_line(out: &mut [u8], at: usize, i: u64, p: Parameters, ticks: u64) -> usize
    requires { at + line_most ≤ length out.old }
    ensures put { Put out.old at (bound_line i p ticks) out.new result }
    ensures upper_bound { result ≤ at + line_most }
{
    if p.policy != SCHED_SPORADIC {
        return at;
    }
    let m = bound::most_of(p, ticks);
    put_numbers(out, at, i, m.ticks, ticks)
}

// The lines of a table, from the buffer's start on.
fn put_lines(out: &mut [u8], table: &[Parameters; THREADS], ticks: u64) -> usize
    requires { largest ≤ length out.old }
    ensures put { Put out.old 0 (bound_lines table.now ticks) out.new result }
    ensures upper_bound { result ≤ largest }
{
    let mut here = 0;
    for i in 0..THREADS {
        here = put_line(out, here, i as u64, table[i], ticks);
    }
    here
}

// All lines of a file, or that of its refusal, from the buffer's start on.
fn put_listing(out: &mut [u8], file: &[u8], ticks: u64) -> usize
    requires { largest ≤ length out.old }
    ensures put { Put out.old 0 (bound_listing file.now ticks) out.new result }
    ensures upper_bound { result ≤ largest }
{
    let status = replay_begin::begin_status(file);
    if status != 0 {
        return refusal_line::put_refusal(out, status);
    }
    let contents = trace_read::read(file);
    put_lines(out, &contents.table, ticks)
}

// Puts the lines of a file at a buffer's start, with zeros after them, whatever it held; how many bytes they are.
pub fn bound_listing(file: &[u8], ticks: u64, out: &mut [u8; LARGEST]) -> usize
    ensures put { Put (replicate largest 0) 0 (bound_listing file.now ticks) out.new result }
    ensures within { result ≤ largest }
{
    *out = [0u8; LARGEST];
    put_listing(out, file, ticks)
}
