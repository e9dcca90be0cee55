// The moments of an account: when its first replenishment is due, and its limit is reached. What is due comes back in `account_returns`.
#![tactic(auto)]

ghost use Rattle.std.specs.Prelude.{◌≡◌};
ghost use Rattle.sporadic.specs.Rules.{limit_effect};
ghost use Rattle.account.specs.Account.{first_due};
ghost use Rattle.account.specs.Rules.{outcome, Schedulable};

use account::{Account, Outcome, Pending};
use records::Parameters;

// When the first pending replenishment is due; 0, and no Option, where none is pending: the definition gives 0.
pub fn first_due(q: Pending) -> u64
    ensures { result ≡ first_due q }
{
    if q.count == 0 {
        return 0;
    }
    q.dues[0]
}

// The limit is reached.
#[tactic(auto, unfolding(sporadic::specs::Rules::limit_effect, sporadic::specs::Rules::scheduled))]
pub fn limit_reached(p: Parameters, a: Account, blocked: bool, now: u64) -> Outcome
    requires { Schedulable p a.server a.pending.count }
    ensures { result ≡ outcome (limit_effect now blocked p a.server) a }
{
    account::outcome_of(effects::limit_effect(p, a.server, blocked, now), a)
}
