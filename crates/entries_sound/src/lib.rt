// What soundness asks of an account's pending entries, for any contents: sums are compared by differences, so that none wraps.
#![tactic(auto)]

ghost use Rattle.std.specs.Prelude.{◌≡◌, ◌+◌, [], ◌∷◌, length};
ghost use Rattle.base.specs.Tests.{all};
ghost use Rattle.account.specs.Sound.{amount_tests, due_tests, last_due};

use records::MOST_TICKS;

// The pending entries: the amounts are at least 1 and with capacity and U make the budget; the dues don't fall and lie after
// `after` by at most MOST_TICKS. One pass over both.
pub fn entries_hold<'a>(
    budget: u64,
    capacity: u64,
    used: u64,
    amounts: &'a [u64],
    dues: &'a [u64],
    after: u64,
) -> bool
    requires { length amounts.now ≡ length dues.now }
    ensures { result ≡ all (all (amount_tests budget (capacity + used) amounts.now) ∷ all (due_tests (after + 1) (last_due after) dues.now) ∷ []) }
{
    if budget < capacity {
        return false;
    }
    if budget - capacity < used {
        return false;
    }
    let mut left = budget - capacity - used;
    let mut last = after;
    for (amount, due) in amounts.iter().zip(dues) {
        if *amount < 1 {
            return false;
        }
        if left < *amount {
            return false;
        }
        if *due <= last {
            return false;
        }
        if MOST_TICKS < due - after {
            return false;
        }
        left -= amount;
        // the next one may be due at the same time
        last = due - 1;
    }
    left == 0
}
