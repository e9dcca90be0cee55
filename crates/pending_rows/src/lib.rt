// A thread's pending replenishments as one value: read from its rows, and written to them.
#![tactic(auto)]

ghost use Rattle.std.specs.Prelude.{◌≡◌, ◌<◌};
ghost use Rattle.records.specs.Ranges.{most_threads};
ghost use Rattle.rows.specs.Rows.{with_slots, pending_of};

use account::Pending;
use records::THREADS;
use rows::Slots;

// Thread i's pending replenishments.
pub fn pending_at<'a>(
    counts: &'a [u8; THREADS],
    dues: &'a Slots,
    amounts: &'a Slots,
    i: usize,
) -> Pending
    requires { i < most_threads }
    ensures { result ≡ pending_of counts.now dues.now amounts.now i }
{
    Pending {
        count: counts[i],
        dues: rows::read_row(dues, i),
        amounts: rows::read_row(amounts, i),
    }
}

// Other pending replenishments in thread i's slots.
pub fn write_pending(dues: &mut Slots, amounts: &mut Slots, i: usize, q: Pending)
    requires { i < most_threads }
    ensures { (dues.new ≡ with_slots i q.dues dues.old) × (amounts.new ≡ with_slots i q.amounts amounts.old) }
{
    rows::write_row(dues, i, q.dues);
    rows::write_row(amounts, i, q.amounts);
}
