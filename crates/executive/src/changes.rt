// What an event does to the state at its time.
ghost use Rattle.std.specs.Prelude.{◌≡◌, cond, ◌<◌, ◌^◌, leb};
ghost use Rattle.records.specs.Ranges.{most_threads};
ghost use Rattle.reports.specs.Tallies.{back_tally, more_of};
ghost use Rattle.sporadic.specs.Rules.{due_of};
ghost use Rattle.sporadic.specs.Carry.{Carryable};
ghost use Rattle.account.specs.Rules.{Schedulable};
ghost use Rattle.ready.specs.Word.{occupancy};
ghost use Rattle.ready.specs.Rules.{Joinable, Leavable, Movable};
ghost use Rattle.events.specs.Events.{becomes, change_of, shifted};
ghost use Rattle.events.specs.Reports.{own_back};
ghost use Rattle.executive.specs.Private.{change_in, left_of, Happens, InPlace};

use super::parts;
use account::{Account, Pending};
use events::{BLOCK, Change, WAKE, YIELD};
use ready::LIST_BYTES;
use records::{Event, SCHED_SPORADIC, THREADS};
use reports::NUMBERS;
use rows::Slots;
use thread::Thread;

// What an event leaves to be put into the core: the thread with its server, and the lists that it leaves and joins, 0 for none.
#[derive(Clone, Copy)]
pub struct Left {
    pub thread: Thread,
    pub from: u8,
    pub to: u8,
}

// The thread that an event concerns: the running one, or the one that it names.
pub(super) fn concerned(kind: u8, thread: u8, head: u8) -> u8
    ensures { result ≡ cond (leb kind 2) head thread }
{
    if kind <= YIELD {
        return head;
    }
    thread
}

// The change of a thread t with account a to u with account b.
fn change_to(t: Thread, a: Account, u: Thread, b: Account) -> Change
    ensures { result ≡ becomes t a u b }
{
    let then = thread_updates::with_server(u, b.server);
    Change {
        thread: u,
        account: b,
        from: thread_place::assigned_place(t, a.pending.count),
        to: thread_place::assigned_place(then, b.pending.count),
    }
}

// What an event does at its time to the thread that it concerns.
fn change_of(e: Event, t: Thread, q: Pending) -> Change
    requires { (0 < e.kind) × (e.kind ≡ 1 → 1 < t.parameters.policy → Schedulable t.parameters t.server q.count)
        × (3 < e.kind → 1 < t.parameters.policy → 1 < e.parameters.policy → Carryable t.parameters e.parameters t.server.capacity) }
    ensures { result ≡ change_of e.kind e.time e.parameters t (record { server = t.server; pending = q }) }
{
    let a = Account {
        server: t.server,
        pending: q,
    };
    if e.kind == BLOCK {
        let u = thread_updates::with_blocked(t, 1);
        let b = parts::after_block(e.time, t, a);
        return change_to(t, a, u, b);
    }
    if e.kind == YIELD {
        let u = thread::full_quantum(t);
        return change_to(t, a, u, a);
    }
    if e.kind == WAKE {
        let u = thread_updates::with_blocked(thread::full_quantum(t), 0);
        let b = parts::after_wake(e.time, t, a);
        return change_to(t, a, u, b);
    }
    let u = thread::renew(e.parameters, t);
    let b = account_making::set_account(t.parameters, e.parameters, a, 0 < t.blocked, e.time);
    change_to(t, a, u, b)
}

// What the event's own effect brings back to the thread at once: U of a sporadic thread that blocks, where it is due.
fn own_back(e: Event, t: Thread) -> u64
    requires { e.kind ≡ 1 → 1 < t.parameters.policy → due_of t.parameters t.server < 2 ^ 64 }
    ensures { result ≡ own_back e.kind e.time t }
{
    if e.kind != BLOCK {
        return 0;
    }
    if t.parameters.policy < SCHED_SPORADIC {
        return 0;
    }
    effects::block_effect(t.parameters, t.server, false, e.time).back
}

// What an event does at its time to thread t at place i, which it concerns: its entries and what it tells are written.
pub(super) fn happen(
    e: Event,
    t: Thread,
    i: usize,
    counts: &mut [u8; THREADS],
    dues: &mut Slots,
    amounts: &mut Slots,
    told: &mut [u64; NUMBERS],
) -> Left
    requires { (i < most_threads) × Happens e t i counts.old told.old }
    ensures value { result ≡ left_of (change_in e t i counts.old dues.old amounts.old) }
    ensures in_place { InPlace i (change_in e t i counts.old dues.old amounts.old).account.pending
        counts.old dues.old amounts.old counts.new dues.new amounts.new }
    ensures told_after { told.new ≡ more_of i (back_tally (own_back e.kind e.time t)) told.old }
{
    reports::tell_back(told, i, own_back(e, t));
    let q = pending_rows::pending_at(counts, dues, amounts, i);
    let c = change_of(e, t, q);
    counts[i] = c.account.pending.count;
    pending_rows::write_pending(dues, amounts, i, c.account.pending);
    Left {
        thread: thread_updates::with_server(c.thread, c.account.server),
        from: c.from,
        to: c.to,
    }
}

// Thread k leaves list `from` and becomes the tail of list `to`, 0 for none; the answer is the word of the lists as they
// then are.
pub(super) fn shift(word: u32, lists: &mut [u8; LIST_BYTES], k: u8, from: u8, to: u8) -> u32
    requires { (from ≡ 0 → to ≡ 0 → word ≡ occupancy lists.old)
        × (from ≡ 0 → (to ≡ 0 → ⊥) → Joinable word to lists.old)
        × ((from ≡ 0 → ⊥) → to ≡ 0 → Leavable word from k lists.old)
        × ((from ≡ 0 → ⊥) → (to ≡ 0 → ⊥) → Movable word k from to lists.old) }
    ensures { (lists.new ≡ shifted k from to lists.old) × (result ≡ occupancy (shifted k from to lists.old)) }
{
    if from == 0 {
        if to == 0 {
            return word;
        }
        return ready_tail::append(lists, word, to, k);
    }
    if to == 0 {
        return ready_removal::remove(lists, word, from, k);
    }
    ready_tail::move_to_tail(lists, word, k, from, to)
}
