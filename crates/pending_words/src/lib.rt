// The word of the threads that have something pending, a bit for each: made from their counts, and kept where one count changes.
#![tactic(auto)]

ghost use Rattle.std.specs.Prelude.{◌≡◌, cond, ◌<◌, ◌^◌, eqb};
ghost use Rattle.records.specs.Ranges.{most_threads};
ghost use Rattle.due_search.specs.Word.{PendingWord, WordAfter};

use records::THREADS;

// The threads that have something pending, a bit for each.
pub fn pending_word(counts: &[u8; THREADS]) -> u32
    ensures { PendingWord counts.now result }
{
    let mut word: u32 = 0;
    for k in 0..THREADS {
        word += pending_bit(counts[k], k);
    }
    word
}

// The same word where thread i's count became `count`.
pub fn word_after(word: u32, i: usize, count: u8) -> u32
    requires { i < most_threads }
    ensures { WordAfter word i count result }
{
    let bit = bit_of(i);
    let with = word | bit;
    if count == 0 {
        return with ^ bit;
    }
    with
}

// The bit of thread i where it has something pending, else 0.
fn pending_bit(count: u8, i: usize) -> u32
    requires { i < most_threads }
    ensures { result ≡ cond (eqb count 0) 0 (2 ^ i) }
{
    if 0 < count {
        return bit_of(i);
    }
    0
}

// The bit of thread i.
fn bit_of(i: usize) -> u32
    requires { i < most_threads }
    ensures { result ≡ 2 ^ i }
{
    1u32 << (i as u32)
}
