// One entry comes into a thread's rows of dues and amounts, or the first one goes: the rows are changed in their place.
#![tactic(auto)]

ghost use Rattle.std.specs.Prelude.{◌≡◌, true, false, ◌+◌, ◌-◌, ◌*◌, ◌<◌, ◌≤◌, get_or};
ghost use Rattle.records.specs.Ranges.{most_threads};
ghost use Rattle.entries.specs.Entries.{entries, without_first, slot_for, inserted};
ghost use Rattle.rows.specs.Rows.{slots_at, with_slots};

use entries::ENTRIES;
use rows::Slots;

// One more entry among thread i's first `count`, in due order and after those of equal due. Those that are due later move one slot down, from the last
// on: usually none. One loop finds the slot and moves both rows; a search and two moves took a moment up to 9 % more instructions.
pub fn insert_entry(
    dues: &mut Slots,
    amounts: &mut Slots,
    i: usize,
    count: usize,
    due: u64,
    amount: u64,
)
    requires { (i < most_threads) × (count < entries) }
    ensures { (dues.new ≡ with_slots i (inserted (slot_for due count (slots_at i dues.old)) count due (slots_at i dues.old)) dues.old)
        × (amounts.new ≡ with_slots i (inserted (slot_for due count (slots_at i dues.old)) count amount (slots_at i amounts.old)) amounts.old) }
{
    let start = i * ENTRIES;
    let mut k = count;
    while later_before(dues, i, k, due) {
        dues[start + k] = dues[start + (k - 1)];
        amounts[start + k] = amounts[start + (k - 1)];
        k = k - 1;
    }
    dues[start + k] = due;
    amounts[start + k] = amount;
}

// Whether the due before slot k of thread i is later than `due`; before slot 0 there is none.
fn later_before(dues: &Slots, i: usize, k: usize, due: u64) -> bool
    requires { (i < most_threads) × (k < entries) }
    ensures { (result ≡ true → (0 < k) × (due < get_or dues.now (i * entries + (k - 1)) 0))
        × (result ≡ false → 0 < k → get_or dues.now (i * entries + (k - 1)) 0 ≤ due) }
{
    k != 0 && due < dues[i * ENTRIES + (k - 1)]
}

// Thread i's first number goes: each other one slot up, and the last slot is 0.
pub fn remove_first(xs: &mut Slots, i: usize)
    requires { i < most_threads }
    ensures { xs.new ≡ with_slots i (without_first (slots_at i xs.old)) xs.old }
{
    let row = rows::read_row(xs, i);
    rows::write_row(xs, i, entries::without_first(row));
}
