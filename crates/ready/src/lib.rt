// The ordered lists of the priorities 1 to 32 and the occupancy word.
//
// All lists stand in one array, a row for each. The row of list p starts at (p - 1) * ROW_BYTES: the list's length, then
// its thread numbers from head to tail, then zeros. The word has bit p - 1 set exactly when list p holds a thread.
#![tactic(auto)]

ghost use Rattle.std.specs.Prelude.{◌≡◌, ◌-◌, ◌^◌, ◌≤◌, replicate};
ghost use Rattle.records.specs.Ranges.{highest_priority};
ghost use Rattle.ready.specs.Lists.{list_bytes, start, head_of};
ghost use Rattle.ready.specs.Word.{highest_of};
ghost use Rattle.ready.specs.Rules.{Held};

use records::{HIGHEST_PRIORITY, THREADS};

// The bytes of a list's row, which may hold all threads, and of all rows.
pub const ROW_BYTES: usize = 1 + THREADS;

pub const LIST_BYTES: usize = HIGHEST_PRIORITY as usize * ROW_BYTES;

// Where the row of list p starts.
pub fn row_start(p: u8) -> usize
    requires { (1 ≤ p) × (p ≤ highest_priority) }
    ensures { result ≡ start p }
{
    (usize::from(p) - 1) * ROW_BYTES
}

// The bit of list p.
pub fn bit(p: u8) -> u32
    requires { (1 ≤ p) × (p ≤ highest_priority) }
    ensures { result ≡ 2 ^ (p - 1) }
{
    1u32 << u32::from(p - 1)
}

// Lists that hold no thread; their word is 0.
pub fn empty() -> [u8; LIST_BYTES]
    ensures { result ≡ replicate list_bytes 0 }
{
    [0u8; LIST_BYTES]
}

// The priority of the highest list that holds a thread, 0 where none does: 32 less the leading zeros, as 01 has it.
pub fn highest(word: u32) -> u8
    ensures { result ≡ highest_of word }
{
    (32 - u32::leading_zeros(word)) as u8
}

// The thread at the head of list p.
pub fn head(lists: &[u8; LIST_BYTES], p: u8) -> u8
    requires { Held p lists.now }
    ensures { result ≡ head_of p lists.now }
{
    let at = row_start(p);
    lists[at + 1]
}
