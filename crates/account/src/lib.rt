// One sporadic account: a server and its pending entries. What a rule does to it is its Effect applied, by value. No thread, no list.
#![tactic(auto)]

ghost use Rattle.std.specs.Prelude.{◌≡◌};
ghost use Rattle.entries.specs.Entries.{Room};
ghost use Rattle.account.specs.Rules.{applied, outcome, Schedulable, blocking, waking};

pub use entries::{ENTRIES, count_after};
use records::Parameters;
use sporadic::{Effect, Place, Server};

// The first `count` slots hold the pending replenishments in order of their due times; the others hold 0.
#[derive(Clone, Copy)]
pub struct Pending {
    pub count: u8,
    pub dues: [u64; ENTRIES],
    pub amounts: [u64; ENTRIES],
}

#[derive(Clone, Copy)]
pub struct Account {
    pub server: Server,
    pub pending: Pending,
}

// A rule's answer: the account, and where the thread goes.
#[derive(Clone, Copy)]
pub struct Outcome {
    pub account: Account,
    pub place: Place,
}

// The account after an effect.
fn apply(e: Effect, a: Account) -> Account
    requires { Room e.first e.amount a.pending.count }
    ensures { result ≡ applied e a }
{
    let q = a.pending;
    Account {
        server: e.server,
        pending: Pending {
            count: entries::count_after(e.first, e.amount, q.count),
            dues: insertion::slots_after(q.dues, e.first, e.amount, q.dues, e.due, q.count, e.due),
            amounts: insertion::slots_after(
                q.amounts, e.first, e.amount, q.dues, e.due, q.count, e.amount,
            ),
        },
    }
}

// And where the thread goes.
pub fn outcome_of(e: Effect, a: Account) -> Outcome
    requires { Room e.first e.amount a.pending.count }
    ensures { result ≡ outcome e a }
{
    Outcome {
        account: apply(e, a),
        place: e.place,
    }
}

// The running thread blocks.
#[tactic(auto, unfolding(sporadic::specs::Rules::scheduled))]
pub fn block(p: Parameters, a: Account, blocked: bool, now: u64) -> Outcome
    requires { Schedulable p a.server a.pending.count }
    ensures { result ≡ blocking now blocked p a }
{
    outcome_of(effects::block_effect(p, a.server, blocked, now), a)
}

// A blocked thread wakes.
pub fn wake(p: Parameters, a: Account, blocked: bool, now: u64) -> Outcome
    ensures { result ≡ waking now blocked p a }
{
    outcome_of(
        wake::wake_effect(p, a.server, a.pending.count, blocked, now),
        a,
    )
}
