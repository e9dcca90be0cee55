// What happened to a thread as a line in a lent buffer, and the lines of the sums. Each function answers the offset after what it put.
#![tactic(auto)]

ghost use Rattle.std.specs.Prelude.{◌+◌, ◌<◌, ◌≤◌, length};
ghost use Rattle.records.specs.Ranges.{most_threads};
ghost use Rattle.text.specs.Placed.{Put};
ghost use Rattle.counts_text.specs.Lines.{count_word, thread_line, sums_text};
ghost use Rattle.counts_text.specs.Room.{thread_line_most, room};

use records::THREADS;
use reports::{NUMBERS, PER_THREAD};
use text::put_word;
use text_fields::{put_field, put_row};

// A buffer of so many bytes is long enough for the lines of an event, and for the sums.
pub const ROOM: usize = 15 + 93 * THREADS;

// The line of thread i: a word, its number and its four numbers.
pub fn put_thread(out: &mut [u8], at: usize, word: &[u8], i: usize, xs: &[u64; NUMBERS]) -> usize
    requires { (i < most_threads) × (length word.now ≤ length count_word) × (at + thread_line_most ≤ length out.old) }
    ensures put { Put out.old at (thread_line word.now xs.now i) out.new result }
    ensures upper_bound { result ≤ at + thread_line_most }
{
    let k = i * PER_THREAD;
    let here = put_word(out, at, word);
    let there = put_field(out, here, i as u64, b' ');
    put_row(out, there, xs[k], xs[k + 1], xs[k + 2], xs[k + 3])
}

// The sums of each of n threads from the buffer's start on.
pub fn put_sums(out: &mut [u8], n: usize, sums: &[u64; NUMBERS]) -> usize
    requires { (n ≤ most_threads) × (room ≤ length out.old) }
    ensures put { Put out.old 0 (sums_text n sums.now) out.new result }
    ensures upper_bound { result ≤ room }
{
    let mut here = 0;
    for t in 0..n {
        here = put_thread(out, here, b"sum ", t, sums);
    }
    here
}
