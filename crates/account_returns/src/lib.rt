// What is due comes back to an account.
#![tactic(auto)]

ghost use Rattle.std.specs.Prelude.{◌≡◌};
ghost use Rattle.account.specs.Rules.{first_is_due, return_first, returned, returning};

use account::{Account, Outcome, Pending};
use records::Parameters;
use sporadic::{Effect, Place};

// Whether the first pending replenishment is due.
fn first_is_due(pending: Pending, now: u64) -> bool
    ensures { result ≡ first_is_due now pending }
{
    0 < pending.count && pending.dues[0] <= now
}

// The first pending replenishment comes back.
fn return_first(p: Parameters, a: Account, blocked: bool, now: u64) -> Effect
    ensures { result ≡ return_first now blocked p a }
{
    effects::return_effect(
        p,
        a.server,
        a.pending.count,
        a.pending.amounts[0],
        blocked,
        now,
    )
}

// Every pending replenishment that is due comes back, one after the other.
#[tactic(auto, unfolding(sporadic::specs::Rules::return_effect, account::specs::Rules::returned))]
fn all_back(p: Parameters, a: Account, blocked: bool, now: u64) -> Account
    ensures { result ≡ returned a.pending.count now blocked p a }
{
    let mut r = a;
    while first_is_due(r.pending, now) {
        r = account::outcome_of(return_first(p, r, blocked, now), r).account;
    }
    r
}

// What is due comes back; a runnable thread that was at low goes to upper.
pub fn return_due(p: Parameters, a: Account, blocked: bool, now: u64) -> Outcome
    ensures { result ≡ returning now blocked p a }
{
    let account = all_back(p, a, blocked, now);
    if first_is_due(a.pending, now) {
        let e = return_first(p, a, blocked, now);
        return Outcome {
            account,
            place: e.place,
        };
    }
    Outcome {
        account,
        place: Place::Stays,
    }
}
