// Events at a reading of a counter of 32 bits for programs in other languages. A library of its own: beside `thawonlai_event` it would be
// a second caller of the executive's event, and each would copy the state.
//
// The state is lent as for `thawonlai_event`. It has no `requires`: any values may be handed in, and bad ones get their status.
#![tactic(auto)]

ghost use Rattle.std.specs.Prelude.{◌≡◌};
ghost use Rattle.state.specs.Updates.{whole};
ghost use Rattle.answers.specs.Answer.{replied};
ghost use Rattle.counter.specs.Counter.{counter_answer, counter_numbers};

use answers::{Done, Reply};
use counter::CounterEvent;
use reports::NUMBERS;
use rows::Slots;
use state::Core;

// An event at a reading for a lent state, which is left as the answer says, with what happened told in the lent numbers, whatever
// they held.
#[unsafe(no_mangle)]
pub extern "C" fn thawonlai_counter_event(
    core: &mut Core,
    dues: &mut Slots,
    amounts: &mut Slots,
    told: &mut [u64; NUMBERS],
    e: CounterEvent,
) -> Reply
    ensures { (replied result (whole core.new dues.new amounts.new) ≡ counter_answer (whole core.old dues.old amounts.old) e)
        × (told.new ≡ counter_numbers (whole core.old dues.old amounts.old) e) }
{
    let d = Done::from(counter::event(*core, dues, amounts, told, e));
    *core = d.core;
    d.reply
}
