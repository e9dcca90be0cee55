// The slots as they were before time passed, for a set that may be refused at its time.
ghost use Rattle.std.specs.Prelude.{◌≡◌, true, ◌*◌, replicate};
ghost use Rattle.records.specs.Ranges.{most_threads};
ghost use Rattle.reports.specs.Tallies.{per_thread};

use reports::NUMBERS;
use rows::{SLOTS, Slots};

// The slots, where they may have to be put back; else zeros.
pub(super) fn kept<'a>(judging: bool, slots: &'a Slots) -> Slots
    ensures { judging ≡ true → result ≡ slots.now }
{
    if judging {
        return *slots;
    }
    [0u64; SLOTS]
}

// The dues become d and the amounts m, as they were, and nothing is told.
pub(super) fn put_back(
    dues: &mut Slots,
    amounts: &mut Slots,
    told: &mut [u64; NUMBERS],
    d: Slots,
    m: Slots,
)
    ensures { (dues.new ≡ d) × (amounts.new ≡ m) × (told.new ≡ replicate (most_threads * per_thread) 0) }
{
    *dues = d;
    *amounts = m;
    *told = [0u64; NUMBERS];
}
