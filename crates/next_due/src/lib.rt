// The next due: searched for in any counts and dues, and kept where an entry came.
//
// Few threads are looked at one by one, since the word of those that have something pending costs more to make.
#![tactic(auto)]

ghost use Rattle.std.specs.Prelude.{◌≡◌, ◌-◌, ◌≤◌, ◌^◌};
ghost use Rattle.std.specs.Int.Bits.{bit_and};
ghost use Rattle.records.specs.Ranges.{most_threads};
ghost use Rattle.due_search.specs.Search.{next_due};
ghost use Rattle.due_search.specs.Kept.{NextAfter};

use due_search::Due;
use records::THREADS;
use rows::SLOTS;

// From so many threads on the word is quicker.
const MANY: usize = 8;

// Of the first n threads that have a replenishment pending: the least first due and the lowest thread that has it.
pub fn next_due<'a>(counts: &'a [u8; THREADS], dues: &'a [u64; SLOTS], n: usize) -> Due
    requires { n ≤ most_threads }
    ensures { result ≡ next_due counts.now dues.now n }
{
    if n < MANY {
        return due_search::each_thread(counts, dues, n);
    }
    due_search::next_in_word(below(pending_words::pending_word(counts), n), dues, 0)
}

// The threads of a word that are below n.
fn below(word: u32, n: usize) -> u32
    requires { n ≤ most_threads }
    ensures { result ≡ bit_and word (2 ^ n - 1) }
{
    word & (((1u64 << (n as u32)) - 1) as u32)
}

// The next due after a limit of thread k, which has `count` entries then, the first due at d: that of the counts and dues
// as they are, without a search.
pub fn after_limit(x: Due, k: usize, count: u8, d: u64) -> Due
    ensures { NextAfter x k count d result }
{
    if count == 0 {
        return x;
    }
    if d != x.due {
        return due_search::sooner_of(x, k, d);
    }
    // at equal dues the lower thread comes first
    if k < x.thread {
        return Due { due: d, thread: k };
    }
    x
}
