// What happened at an event of a trace, as lines in a lent buffer.
#![tactic(auto)]

ghost use Rattle.std.specs.Prelude.{◌≡◌, ◌+◌, ◌<◌, ◌≤◌, length};
ghost use Rattle.records.specs.Ranges.{most_threads};
ghost use Rattle.trace_records.specs.Layout.{most_events};
ghost use Rattle.text.specs.Placed.{Put};
ghost use Rattle.counts_text.specs.Lines.{event_line, quiet, count_line, event_text};
ghost use Rattle.counts_text.specs.Room.{event_line_most, thread_line_most, room};

use counts_text::put_thread;
use reports::{NUMBERS, PER_THREAD};
use text::put_word;
use text_fields::put_field;

// The line of event i, at the buffer's start.
fn put_event_line(out: &mut [u8], i: u64, status: u8) -> usize
    requires { (i < most_events) × (event_line_most ≤ length out.old) }
    ensures put { Put out.old 0 (event_line i status) out.new result }
    ensures upper_bound { result ≤ event_line_most }
{
    let here = put_word(out, 0, b"event ");
    let there = put_field(out, here, i, b' ');
    put_field(out, there, u64::from(status), b'\n')
}

// Whether nothing happened to thread i.
fn is_quiet(i: usize, xs: &[u64; NUMBERS]) -> bool
    requires { i < most_threads }
    ensures { result ≡ quiet xs.now i }
{
    let k = i * PER_THREAD;
    (xs[k] | xs[k + 1] | xs[k + 2] | xs[k + 3]) == 0
}

// The line of thread i, if something happened to it.
fn put_count(out: &mut [u8], at: usize, i: usize, xs: &[u64; NUMBERS]) -> usize
    requires { (i < most_threads) × (at + thread_line_most ≤ length out.old) }
    ensures put { Put out.old at (count_line xs.now i) out.new result }
    ensures upper_bound { result ≤ at + thread_line_most }
{
    if is_quiet(i, xs) {
        return at;
    }
    put_thread(out, at, b"count ", i, xs)
}

// The lines of event i from the buffer's start on, given its status, how many threads there are, and its numbers.
pub fn put_event(out: &mut [u8], i: u64, status: u8, n: usize, told: &[u64; NUMBERS]) -> usize
    requires { (i < most_events) × (n ≤ most_threads) × (room ≤ length out.old) }
    ensures put { Put out.old 0 (event_text i status n told.now) out.new result }
    ensures upper_bound { result ≤ room }
{
    let mut here = put_event_line(out, i, status);
    for t in 0..n {
        here = put_count(out, here, t, told);
    }
    here
}
