// What an event does to one thread and its account, and what of an event is judged before the state is.
ghost use Rattle.std.specs.Prelude.{◌≡◌, true, false, cond, not, ◌&&◌, leb, eqb, ◌<◌};
ghost use Rattle.base.specs.Status.{as_status};
ghost use Rattle.records.specs.Ranges.{most_threads, most_replenishments, in_range, all_zero};
ghost use Rattle.account.specs.Rules.{Schedulable, blocking, waking};
ghost use Rattle.events.specs.Events.{if_sporadic};
ghost use Rattle.events.specs.Answers.{field_status_of, state_status_of};

use account::{Account, ENTRIES};
use base::Refusal;
use events::{BLOCK, SET, WAKE, YIELD};
use records::{Event, Parameters, SCHED_SPORADIC, THREADS};
use thread::Thread;

// A thread's number as an index that never strays; 0 where there is no such place.
pub(super) fn index(x: u8) -> usize
    ensures { (result < most_threads) × (x < most_threads → result ≡ x) }
{
    let i = usize::from(x);
    if i < THREADS {
        return i;
    }
    0
}

// The account of a thread that blocks.
pub(super) fn after_block(time: u64, t: Thread, a: Account) -> Account
    requires { 1 < t.parameters.policy → Schedulable t.parameters a.server a.pending.count }
    ensures { result ≡ if_sporadic t (blocking time false t.parameters a).account a }
{
    if t.parameters.policy < SCHED_SPORADIC {
        return a;
    }
    account::block(t.parameters, a, false, time).account
}

// The account of a thread that wakes. Apart from `after_block`, whose rule requires more: one function for both would take the rule and what it
// requires.
pub(super) fn after_wake(time: u64, t: Thread, a: Account) -> Account
    ensures { result ≡ if_sporadic t (waking time true t.parameters a).account a }
{
    if t.parameters.policy < SCHED_SPORADIC {
        return a;
    }
    account::wake(t.parameters, a, true, time).account
}

// Whether an event of this kind must not name the thread.
fn bad_thread(n: u32, kind: u8, thread: u8) -> bool
    ensures { result ≡ cond (leb kind 2) (not (eqb thread 0)) (leb n thread) }
{
    if kind <= YIELD {
        return thread != 0;
    }
    n <= u32::from(thread)
}

// Whether an event of this kind must not have these parameters.
fn bad_parameters(kind: u8, p: Parameters) -> bool
    ensures { result ≡ cond (eqb kind 4) (not (in_range most_replenishments p && eqb p.flag 0)) (not (all_zero p)) }
{
    if kind == SET {
        return !records::in_range(p, ENTRIES as u8) || p.flag != 0;
    }
    !records::all_zero(p)
}

// Whether the event's fields are right; refused with 4, 5 or 6.
#[tactic(auto, unfolding(events::specs::Answers::field_status_of, base::specs::Refusals::first_refusal))]
pub(super) fn field_status(n: u32, e: Event) -> Result<(), Refusal>
    ensures { as_status result ≡ field_status_of n e }
{
    if SET < e.kind {
        return Err(Refusal::WrongKind);
    }
    if bad_thread(n, e.kind, e.thread) {
        return Err(Refusal::WrongThread);
    }
    if bad_parameters(e.kind, e.parameters) {
        return Err(Refusal::WrongParameters);
    }
    Ok(())
}

// Whether the state allows the event; refused with 7 or 8: nothing runs, or the thread is not blocked. 15 is judged apart.
#[tactic(auto, unfolding(events::specs::Answers::state_status_of, base::specs::Refusals::first_refusal))]
pub(super) fn state_status(kind: u8, idle: bool, blocked: bool) -> Result<(), Refusal>
    ensures { as_status result ≡ state_status_of kind idle blocked false }
{
    if (kind == BLOCK || kind == YIELD) && idle {
        return Err(Refusal::NothingRuns);
    }
    if kind == WAKE && !blocked {
        return Err(Refusal::NotBlocked);
    }
    Ok(())
}

// The thread that runs, 255 for none: the head of the highest list, which is 0 where no thread is in one.
pub(super) fn runs(level: u8, head: u8) -> u8
    ensures { result ≡ cond (eqb level 0) 255 head }
{
    if level == 0 {
        return 255;
    }
    head
}
