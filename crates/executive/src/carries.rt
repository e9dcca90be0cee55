// Whether a set that carries an account over is refused with 15, which is judged at the event's time.
ghost use Rattle.std.specs.Prelude.{◌≡◌, true, false, cond, ◌&&◌, ◌+◌, ◌-◌, ◌≤◌, ◌<◌, ◌^◌, ltb, eqb, get_or};
ghost use Rattle.base.specs.Status.{as_status};
ghost use Rattle.records.specs.Ranges.{most_threads};
ghost use Rattle.thread.specs.Thread.{no_thread};
ghost use Rattle.executive.specs.Private.{carry_status, ran_up_to, settled_of, after_moments};

use super::statuses::Stand;
use base::Refusal;
use events::SET;
use records::{Event, SCHED_RR};
use state::Core;
use thread::Thread;

// Whether an event of this kind is a set of a sporadic thread (by its policy `old`) to sporadic. It is told no more than that: an
// event and a thread by value cost their copies at every event.
pub(super) fn carries_over(kind: u8, old: u8, new: u8) -> bool
    ensures { result ≡ (eqb kind 4 && (ltb 1 old && ltb 1 new)) }
{
    kind == SET && SCHED_RR < old && SCHED_RR < new
}

// Whether the account of the thread, as it is at the event's time, can be carried over; refused with 15.
fn carry_status(e: Event, t: Thread, count: u8) -> Result<(), Refusal>
    ensures { as_status result ≡ carry_status e t count }
{
    let (old, new) = (t.parameters, e.parameters);
    if carries_over(e.kind, old.policy, new.policy)
        && carrying::cant_carry(old, new, t.server.capacity, count, 0 < t.blocked)
    {
        return Err(Refusal::NotCarried);
    }
    Ok(())
}

// How an event stands whose status is judged whole.
fn settled(answer: Result<(), Refusal>, quiet: bool) -> Stand
    ensures { result ≡ settled_of (as_status answer) quiet }
{
    let status = base::as_status(answer);
    Stand {
        status,
        done: status != 0,
        judging: false,
        quiet,
    }
}

// Whether it can be where no moment falls up to the event: up to its time the thread t that it names has run in list `level`, if it
// is the head, and otherwise stays as it is.
fn status_now(e: Event, t: Thread, count: u8, level: u8, head: u8, now: u64) -> Result<(), Refusal>
    requires { (now ≤ e.time)
        × (head ≡ e.thread → eqb level 0 ≡ false → (t.total + (e.time - now) < 2 ^ 64) × (t.server.used + (e.time - now) < 2 ^ 64)
        × (t.parameters.policy ≡ 1 → e.time - now ≤ t.left)
        × (1 < t.parameters.policy → level ≡ t.parameters.priority → e.time - now ≤ t.server.capacity)) }
    ensures { as_status result ≡ carry_status e (ran_up_to (e.time - now) level head e.thread t) count }
{
    if head == e.thread {
        let k = e.time - now;
        return carry_status(e, ticks::charged_thread(level, k, t), count);
    }
    carry_status(e, t, count)
}

// How an event stands at its time, after a moment, where s is the state then.
pub(super) fn judged(stand: Stand, e: Event, s: Core) -> Stand
    requires { stand.judging ≡ true → e.thread < most_threads }
    ensures { result ≡ cond stand.judging (settled_of (carry_status e (get_or s.threads e.thread no_thread) (get_or s.counts e.thread 0)) false) (after_moments stand) }
{
    if !stand.judging {
        return Stand {
            judging: false,
            quiet: false,
            ..stand
        };
    }
    let i = usize::from(e.thread);
    settled(carry_status(e, s.threads[i], s.counts[i]), false)
}

// The same where no moment falls up to the event.
pub(super) fn judged_now(e: Event, t: Thread, count: u8, level: u8, head: u8, now: u64) -> Stand
    requires { (now ≤ e.time)
        × (head ≡ e.thread → eqb level 0 ≡ false → (t.total + (e.time - now) < 2 ^ 64) × (t.server.used + (e.time - now) < 2 ^ 64)
        × (t.parameters.policy ≡ 1 → e.time - now ≤ t.left)
        × (1 < t.parameters.policy → level ≡ t.parameters.priority → e.time - now ≤ t.server.capacity)) }
    ensures { result ≡ settled_of (carry_status e (ran_up_to (e.time - now) level head e.thread t) count) true }
{
    settled(status_now(e, t, count, level, head, now), true)
}
