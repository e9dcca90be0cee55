// The search for the next due: threads that have nothing pending are passed over, and of the rest only the first due is read.
//
// It goes thread by thread, or through the word of those that have something pending: its lowest bit is taken off until none is left. Who
// searches again may keep the word.
#![tactic(auto)]

ghost use Rattle.std.specs.Prelude.{◌≡◌, cond, ◌-◌, ◌<◌, ◌≤◌, ltb};
ghost use Rattle.std.specs.Int.Bits.{bit_and};
ghost use Rattle.std.specs.Int.Count.{count_trailing_zeros};
ghost use Rattle.records.specs.Ranges.{most_threads};
ghost use Rattle.due_search.specs.Search.{first_due, sooner, next_due};
ghost use Rattle.due_search.specs.Word.{NextInWord};

use account::ENTRIES;
use records::THREADS;
use rows::SLOTS;

// The slot of a thread's first entry among its own.
const FIRST: usize = 0;

// The first of the dues, and the lowest thread that has it; thread THREADS for none.
// A number and no Option: C is handed thread 32, and `next_due`, `NextInWord` and `NextAfter` say so.
#[derive(Clone, Copy)]
pub struct Due {
    pub due: u64,
    pub thread: usize,
}

// Of the first n threads that have a replenishment pending: the least first due and the lowest thread that has it.
pub fn each_thread<'a>(counts: &'a [u8; THREADS], dues: &'a [u64; SLOTS], n: usize) -> Due
    requires { n ≤ most_threads }
    ensures { result ≡ next_due counts.now dues.now n }
{
    let mut best = Due {
        due: 0,
        thread: THREADS,
    };
    for i in 0..n {
        if counts[i] == 0 {
            continue;
        }
        best = sooner_of(best, i, first_due(dues, i));
    }
    best
}

// The same of the threads of a word. Where no first due is before `earliest`, the search ends at the first that is not after it, since none is
// sooner.
pub fn next_in_word(word: u32, dues: &[u64; SLOTS], earliest: u64) -> Due
    ensures { NextInWord word dues.now earliest result }
{
    if word == 0 {
        return Due {
            due: 0,
            thread: THREADS,
        };
    }
    let first = lowest(word);
    let mut rest = without_lowest(word);
    let mut best = Due {
        due: first_due(dues, first),
        thread: first,
    };
    while earliest < best.due {
        if rest == 0 {
            return best;
        }
        let k = lowest(rest);
        rest = without_lowest(rest);
        best = lesser_of(best, k, first_due(dues, k));
    }
    best
}

// The lowest thread of a word, THREADS where it has none.
fn lowest(word: u32) -> usize
    ensures { result ≡ count_trailing_zeros 32 word }
{
    u32::trailing_zeros(word) as usize
}

// The word without its lowest thread.
fn without_lowest(word: u32) -> u32
    requires { 0 < word }
    ensures { result ≡ bit_and word (word - 1) }
{
    word & (word - 1)
}

// The first due of thread i.
fn first_due(dues: &[u64; SLOTS], i: usize) -> u64
    requires { i < most_threads }
    ensures { result ≡ first_due dues.now i }
{
    dues[i * ENTRIES + FIRST]
}

// The lesser of the best so far and the first due d of thread k.
fn lesser_of(best: Due, k: usize, d: u64) -> Due
    ensures { result ≡ cond (ltb d best.due) (record { due = d; thread = k }) best }
{
    if d < best.due {
        return Due { due: d, thread: k };
    }
    best
}

// The same, where there may be no best so far.
pub fn sooner_of(best: Due, k: usize, d: u64) -> Due
    ensures { result ≡ sooner k d best }
{
    if best.thread == THREADS {
        return Due { due: d, thread: k };
    }
    lesser_of(best, k, d)
}
