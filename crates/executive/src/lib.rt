// The executive: events and their answers. The state goes as a core by value with its slots lent.
#![tactic(auto)]

ghost use Rattle.std.specs.Prelude.{◌≡◌, true, false, ◌*◌, replicate};
ghost use Rattle.records.specs.Ranges.{most_threads};
ghost use Rattle.reports.specs.Tallies.{per_thread};
ghost use Rattle.state.specs.Sound.{sound_state};
ghost use Rattle.state.specs.Updates.{whole};
ghost use Rattle.passing.specs.Sequence.{answer};
ghost use Rattle.events.specs.Answers.{executive};
ghost use Rattle.events.specs.Reports.{event_numbers};
ghost use Rattle.answers.specs.Answer.{answer_of};
ghost use Rattle.trace_reader.specs.Reader.{events_from};
ghost use Rattle.executive.specs.Steps.{last_given, answer_to, numbers_of};

use answers::Answer;
use base::Refusal;
use events::CLOCK;
use ready::LIST_BYTES;
use records::{Event, THREADS};
use reports::NUMBERS;
use rows::Slots;
use state::Core;

mod carries; // carries.rt: whether a set that carries an account over is refused
mod changes; // changes.rt: what an accepted event does to the state
mod following; // following.rt: the event after the one that is answered
mod kept; // kept.rt: the slots as they were before time passed
mod parts; // parts.rt: what an event does to one thread and its account
mod statuses; // statuses.rt: whether an event is accepted

// Whether a state is sound; where that is known, nothing is tested. What is read by an index is lent beside the core, which so is not
// copied.
fn tested<'a>(
    known: bool,
    s: Core,
    counts: &'a [u8; THREADS],
    dues: &'a Slots,
    amounts: &'a Slots,
    lists: &'a [u8; LIST_BYTES],
) -> bool
    requires { (known ≡ true → sound_state (whole s dues.now amounts.now) ≡ true)
        × (counts.now ≡ s.counts) × (lists.now ≡ s.lists) }
    ensures { result ≡ sound_state (whole s dues.now amounts.now) }
{
    if known {
        return true;
    }
    parts_sound::sound_parts(
        s.header, s.now, s.idle, s.word, s.threads, counts, dues, amounts, lists,
    )
}

// The numbers are zeros, whatever they held; where that is known, nothing is written.
fn clear(known: bool, told: &mut [u64; NUMBERS])
    requires { known ≡ true → told.old ≡ replicate (most_threads * per_thread) 0 }
    ensures { told.new ≡ replicate (most_threads * per_thread) 0 }
{
    if known {
        return;
    }
    *told = [0u64; NUMBERS];
}

// An event, and after it at most `left` of a file's from an offset on, for a state that is changed in place: each call that took the core
// would copy it, so it is copied only where a moment falls up to an event. The last turn of the loop gives the answer to the last
// event; the turns before it judge each event, bring the state to its time and do what it does. A set that carries an account over is
// judged at its time: where it is refused there, the slots become what they were.
fn answer_last(
    mut s: Core,
    dues: &mut Slots,
    amounts: &mut Slots,
    told: &mut [u64; NUMBERS],
    mut e: Event,
    file: &[u8],
    mut offset: usize,
    mut left: usize,
    known: bool,
) -> Answer
    requires { (known ≡ true → sound_state (whole s dues.old amounts.old) ≡ true)
        × (known ≡ true → told.old ≡ replicate (most_threads * per_thread) 0) × (known ≡ false → left ≡ 0) }
    ensures amounts_after { answer_of result dues.new amounts.new ≡ answer_to (last_given (whole s dues.old amounts.old) e (events_from file.now offset left)) }
    ensures numbers { told.new ≡ numbers_of (last_given (whole s dues.old amounts.old) e (events_from file.now offset left)) }
{
    clear(known, told);
    if !tested(known, s, &s.counts, dues, amounts, &s.lists) {
        return answers::nothing_runs(u8::from(Refusal::NotSound), s);
    }
    let mut t = s.threads[parts::index(e.thread)];
    let mut stand = statuses::begun(s.header.n, s.now, s.word, t, e);
    loop {
        let n = s.header.n as usize;
        let level = ready::highest(s.word);
        let h = running::head_at(&s.lists, level);
        let i = usize::from(h);
        let runner = s.threads[i];
        let next = next_moment::next_moment(s.now, level, runner, &s.counts, dues, n);
        if stand.done {
            let Some((event, after)) = following::following(
                file,
                offset,
                left,
                e,
                told,
                stand.quiet,
            ) else {
                return answers::answer_of(stand.status, parts::runs(level, h), next, s);
            };
            e = event;
            offset = after;
            left -= 1;
            t = s.threads[parts::index(e.thread)];
            stand = statuses::begun(s.header.n, s.now, s.word, t, e);
            continue;
        }
        if moment_order::due_by(next, e.time) {
            let kept_dues = kept::kept(stand.judging, dues);
            let kept_amounts = kept::kept(stand.judging, amounts);
            let then = moments::advance(s, dues, amounts, told, e.time);
            stand = carries::judged(stand, e, then);
            if stand.done {
                kept::put_back(dues, amounts, told, kept_dues, kept_amounts);
                continue;
            }
            s = then;
            continue;
        }
        if stand.judging {
            let w = usize::from(e.thread);
            t = s.threads[w];
            stand = carries::judged_now(e, t, s.counts[w], level, h, s.now);
            continue;
        }
        stand.done = true;
        let k = e.time - s.now;
        s.threads[i] = ticks::charged_thread(level, k, runner);
        s.idle = ticks::charged_idle(level, k, s.idle);
        s.now = e.time;
        if e.kind == CLOCK {
            continue;
        }
        let number = changes::concerned(e.kind, e.thread, h);
        let j = usize::from(number);
        t = s.threads[j];
        let c = changes::happen(e, t, j, &mut s.counts, dues, amounts, told);
        t = c.thread;
        s.threads[j] = t;
        s.word = changes::shift(s.word, &mut s.lists, number, c.from, c.to);
    }
}

// An event, and after it at most `left` of a file's from an offset on, for a state that is known to be sound, with numbers that are
// zeros: the answer to the last of them, and what it tells.
pub fn steps(
    c: Core,
    dues: &mut Slots,
    amounts: &mut Slots,
    told: &mut [u64; NUMBERS],
    e: Event,
    file: &[u8],
    offset: usize,
    left: usize,
) -> Answer
    requires { (sound_state (whole c dues.old amounts.old) ≡ true) × (told.old ≡ replicate (most_threads * per_thread) 0) }
    ensures amounts_after { answer_of result dues.new amounts.new ≡ answer_to (last_given (whole c dues.old amounts.old) e (events_from file.now offset left)) }
    ensures numbers { told.new ≡ numbers_of (last_given (whole c dues.old amounts.old) e (events_from file.now offset left)) }
{
    answer_last(c, dues, amounts, told, e, file, offset, left, true)
}

// An event for a state that is known to be sound, with numbers that are zeros. Apart from `event`, since it requires what that one tests.
pub fn step(
    c: Core,
    dues: &mut Slots,
    amounts: &mut Slots,
    told: &mut [u64; NUMBERS],
    e: Event,
) -> Answer
    requires { (sound_state (whole c dues.old amounts.old) ≡ true) × (told.old ≡ replicate (most_threads * per_thread) 0) }
    ensures amounts_after { answer_of result dues.new amounts.new ≡ answer executive (whole c dues.old amounts.old) e }
    ensures numbers { told.new ≡ event_numbers (whole c dues.old amounts.old) e }
{
    answer_last(c, dues, amounts, told, e, &[], 0, 0, true)
}

// An event for any state: one that is not sound is refused with 9 and comes back as it was. What happened while time
// passed is told in the lent numbers, whatever they held.
pub fn event(
    c: Core,
    dues: &mut Slots,
    amounts: &mut Slots,
    told: &mut [u64; NUMBERS],
    e: Event,
) -> Answer
    ensures amounts_after { answer_of result dues.new amounts.new ≡ answer executive (whole c dues.old amounts.old) e }
    ensures numbers { told.new ≡ event_numbers (whole c dues.old amounts.old) e }
{
    answer_last(c, dues, amounts, told, e, &[], 0, 0, false)
}
