// The account that new parameters bring, at opening and at a set: a fresh one, none, or the old one carried over. No thread, no list.
#![tactic(auto)]

ghost use Rattle.std.specs.Prelude.{◌≡◌, ◌<◌};
ghost use Rattle.account.specs.Account.{unused_account, fresh_account, new_account};
ghost use Rattle.account.specs.Carry.{carried, set_account};
ghost use Rattle.sporadic.specs.Carry.{Carryable};

use account::{Account, ENTRIES, Pending};
use records::{Parameters, SCHED_SPORADIC};
use sporadic::Server;

// An account with nothing charged and nothing pending.
fn unused(capacity: u64, activation: u64) -> Account
    ensures { result ≡ unused_account capacity activation }
{
    Account {
        server: Server {
            capacity,
            used: 0,
            activation,
        },
        pending: Pending {
            count: 0,
            dues: [0u64; ENTRIES],
            amounts: [0u64; ENTRIES],
        },
    }
}

// The account that opening and a set give a sporadic thread.
pub fn fresh(p: Parameters, now: u64) -> Account
    ensures { result ≡ fresh_account now p }
{
    unused(p.budget, now)
}

// The account that goes with new parameters.
pub fn new_account(p: Parameters, now: u64) -> Account
    ensures { result ≡ new_account now p }
{
    if p.policy < SCHED_SPORADIC {
        return unused(0, 0);
    }
    fresh(p, now)
}

// An account that is carried over to new parameters: the entries stay.
#[tactic(auto, unfolding(account::specs::Carry::carried))]
fn carry(old: Parameters, new: Parameters, a: Account, blocked: bool, now: u64) -> Account
    requires { Carryable old new a.server.capacity }
    ensures { result ≡ carried now blocked old new a }
{
    Account {
        server: carrying::carry_server(old, new, a.server, a.pending.count, blocked, now),
        ..a
    }
}

// The account that a set gives: carried over where the thread was sporadic and stays so, else anew.
pub fn set_account(old: Parameters, new: Parameters, a: Account, blocked: bool, now: u64) -> Account
    requires { 1 < old.policy → 1 < new.policy → Carryable old new a.server.capacity }
    ensures { result ≡ set_account now blocked old new a }
{
    if old.policy < SCHED_SPORADIC || new.policy < SCHED_SPORADIC {
        return new_account(new, now);
    }
    carry(old, new, a, blocked, now)
}
