// An entry comes among the pending ones, in due order.
#![tactic(auto)]

ghost use Rattle.std.specs.Prelude.{◌≡◌, ◌<◌, ◌≤◌};
ghost use Rattle.entries.specs.Entries.{entries, slot_for, inserted, slots_after, Room};

use entries::ENTRIES;

// How many of the first `count` dues stand before one that is due at `due`, sought from the last.
fn slot_for(dues: [u64; ENTRIES], count: usize, due: u64) -> usize
    requires { count ≤ entries }
    ensures { result ≡ slot_for due count dues }
{
    for k in (0..count).rev() {
        if dues[k] <= due {
            return k + 1;
        }
    }
    0
}

// x at slot k of the first n numbers; those from k on move one slot down. A loop: `copy_within` would need memmove of a board.
fn insert(xs: [u64; ENTRIES], k: usize, n: usize, x: u64) -> [u64; ENTRIES]
    requires { (k ≤ n) × (n < entries) }
    ensures { result ≡ inserted k n x xs }
{
    let mut r = xs;
    for i in (k..n).rev() {
        r[i + 1] = xs[i];
    }
    r[k] = x;
    r
}

// The dues or amounts after a rule: x is the due time or the amount of the one that came, which stands where its due time belongs.
pub fn slots_after(
    xs: [u64; ENTRIES],
    first: bool,
    amount: u64,
    dues: [u64; ENTRIES],
    due: u64,
    count: u8,
    x: u64,
) -> [u64; ENTRIES]
    requires { Room first amount count }
    ensures { result ≡ slots_after first amount (slot_for due count dues) count x xs }
{
    if first {
        return entries::without_first(xs);
    }
    if amount == 0 {
        return xs;
    }
    let n = usize::from(count);
    let k = slot_for(dues, n, due);
    insert(xs, k, n, x)
}
