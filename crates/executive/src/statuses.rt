// The status of an event, in the order in which it is judged.
ghost use Rattle.std.specs.Prelude.{◌≡◌};
ghost use Rattle.base.specs.Status.{as_status};
ghost use Rattle.executive.specs.Private.{time_status, early_status, sound_status, stand_of};
ghost use Rattle.thread.specs.Thread.{is_blocked};
ghost use Rattle.events.specs.Answers.{carries_over};

use super::{carries, parts};
use base::Refusal;
use records::{Event, LAST_TIME, LONGEST_STEP};
use thread::Thread;

// How an event stands: the status that was found for it, whether that is its answer's, whether 15 is still to be judged, and whether
// no moment has fallen up to it, so that only a block may have told something. The status is the number that C's answer holds, and the
// flags are those of `stand_of`.
#[derive(Clone, Copy)]
pub struct Stand {
    pub status: u8,
    pub done: bool,
    pub judging: bool,
    pub quiet: bool,
}

// Whether the event's time is right; refused with 3, 1 or 2.
fn time_status(now: u64, time: u64) -> Result<(), Refusal>
    ensures { as_status result ≡ time_status now time }
{
    if LAST_TIME < time {
        return Err(Refusal::PastLastTime);
    }
    if time < now {
        return Err(Refusal::BeforeNow);
    }
    if LONGEST_STEP < time - now {
        return Err(Refusal::StepTooLong);
    }
    Ok(())
}

// Whether the event's fields and its time are right; refused with 4, 5, 6, 3, 1 or 2.
pub(super) fn early_status(n: u32, now: u64, e: Event) -> Result<(), Refusal>
    ensures { as_status result ≡ early_status n now e }
{
    parts::field_status(n, e)?;
    time_status(now, e.time)
}

// The status of an event for a sound state, but for 15. Time changes neither whether a thread runs nor which are blocked, so
// all of it is judged before time passes.
pub(super) fn status_of(n: u32, now: u64, word: u32, blocked: bool, e: Event) -> Result<(), Refusal>
    ensures { as_status result ≡ sound_status n now word blocked e }
{
    early_status(n, now, e)?;
    let level = ready::highest(word);
    parts::state_status(e.kind, level == 0, blocked)
}

// How an event stands for a sound state before time passes; t is the thread that it names.
pub(super) fn begun(n: u32, now: u64, word: u32, t: Thread, e: Event) -> Stand
    ensures { result ≡ stand_of (sound_status n now word (is_blocked t) e) (carries_over e t) }
{
    let status = base::as_status(status_of(n, now, word, 0 < t.blocked, e));
    Stand {
        status,
        done: status != 0,
        judging: carries::carries_over(e.kind, t.parameters.policy, e.parameters.policy),
        quiet: true,
    }
}
