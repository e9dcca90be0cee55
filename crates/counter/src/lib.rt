// Events whose time is a reading of the board's counter, which is 32 bits wide. The state goes as for an event: a core by value with
// its slots lent.
#![tactic(auto)]

ghost use Rattle.std.specs.Prelude.{◌≡◌};
ghost use Rattle.state.specs.Updates.{whole};
ghost use Rattle.answers.specs.Answer.{answer_of};
ghost use Rattle.counter.specs.Counter.{elapsed_ticks, counter_answer, counter_numbers};
ghost use Rattle.counter.specs.Private.{guarded_time};

use answers::Answer;
use records::{Event, LAST_TIME, Parameters};
use reports::NUMBERS;
use rows::Slots;
use state::Core;

// The counter shows the low 32 bits of the time.
const WRAPS_AT: u64 = 4294967296;

// An event with a reading of the counter for its time.
#[repr(C)]
#[derive(Clone, Copy)]
pub struct CounterEvent {
    pub reading: u32,
    pub kind: u8,
    pub thread: u8,
    pub parameters: Parameters,
}

// The ticks from the time now to a reading: the reading minus the low 32 bits of now, wrapping.
fn elapsed_ticks(now: u64, reading: u32) -> u32
    ensures { result ≡ elapsed_ticks now reading }
{
    let low = (now % WRAPS_AT) as u32;
    reading.wrapping_sub(low)
}

// The time now plus the elapsed ticks. A time now that no sound state has is left as it is, so that no sum wraps: such a state is
// refused with 9 at any time.
fn guarded_time(now: u64, reading: u32) -> u64
    ensures { result ≡ guarded_time now reading }
{
    if LAST_TIME < now {
        return now;
    }
    now + u64::from(elapsed_ticks(now, reading))
}

// An event for any state, its time a reading. What happened while time passed is told in the lent numbers, whatever they held.
pub fn event(
    c: Core,
    dues: &mut Slots,
    amounts: &mut Slots,
    told: &mut [u64; NUMBERS],
    e: CounterEvent,
) -> Answer
    ensures amounts_after { answer_of result dues.new amounts.new ≡ counter_answer (whole c dues.old amounts.old) e }
    ensures numbers { told.new ≡ counter_numbers (whole c dues.old amounts.old) e }
{
    let timed = Event {
        time: guarded_time(c.now, e.reading),
        kind: e.kind,
        thread: e.thread,
        parameters: e.parameters,
    };
    executive::event(c, dues, amounts, told, timed)
}
