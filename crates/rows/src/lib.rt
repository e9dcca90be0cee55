// The pending replenishments of all threads: thread i's count, and its slots of dues and of amounts from i * ENTRIES on.
#![tactic(auto)]

ghost use Rattle.std.specs.Prelude.{◌≡◌, ◌<◌, length, replicate};
ghost use Rattle.records.specs.Ranges.{most_threads};
ghost use Rattle.rows.specs.Rows.{all_slots, slots_at, with_slots};

use entries::ENTRIES;
use records::THREADS;

// How many slots the threads have together.
pub const SLOTS: usize = THREADS * ENTRIES;

// The dues or the amounts of all threads. Two arrays and no struct of both, since C lends each apart.
pub type Slots = [u64; SLOTS];

// How many numbers are lent: an array that is lent as a slice has a known length from then on.
pub fn slots(xs: &[u64]) -> usize
    ensures { result ≡ length xs.now }
{
    xs.len()
}

// All slots are 0, whatever they held.
pub fn clear(xs: &mut Slots)
    ensures { xs.new ≡ replicate all_slots 0 }
{
    *xs = [0u64; SLOTS];
}

// Thread i's slots. Here and in `write_row` a loop over a known length becomes a few moves in its caller; a copy of a part of the slice goes through
// another copy on the stack, which a moment feels.
pub fn read_row(xs: &Slots, i: usize) -> [u64; ENTRIES]
    requires { i < most_threads }
    ensures { result ≡ slots_at i xs.now }
{
    let mut row = [0u64; ENTRIES];
    let from = i * ENTRIES;
    for j in 0..ENTRIES {
        row[j] = xs[from + j];
    }
    row
}

// Other numbers in thread i's slots.
pub fn write_row(xs: &mut Slots, i: usize, row: [u64; ENTRIES])
    requires { i < most_threads }
    ensures { xs.new ≡ with_slots i row xs.old }
{
    let at = i * ENTRIES;
    for j in 0..ENTRIES {
        xs[at + j] = row[j];
    }
}
