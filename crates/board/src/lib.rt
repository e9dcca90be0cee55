// The executive for programs in other languages: a static library's exported function.
//
// A struct is laid out as C lays it out, a lent `Core` is a pointer to one, and a lent array is a pointer to its first number. It has no
// `requires`: any values may be handed in, and bad ones get their status.
#![tactic(auto)]

ghost use Rattle.std.specs.Prelude.{◌≡◌};
ghost use Rattle.passing.specs.Sequence.{answer};
ghost use Rattle.state.specs.Updates.{whole};
ghost use Rattle.events.specs.Answers.{executive};
ghost use Rattle.events.specs.Reports.{event_numbers};
ghost use Rattle.answers.specs.Answer.{replied};

use answers::{Done, Reply};
use records::Event;
use reports::NUMBERS;
use rows::Slots;
use state::Core;

// An event for a lent state, which is left as the answer says, with what happened told in the lent numbers, whatever they held.
#[unsafe(no_mangle)]
pub extern "C" fn thawonlai_event(
    core: &mut Core,
    dues: &mut Slots,
    amounts: &mut Slots,
    told: &mut [u64; NUMBERS],
    e: Event,
) -> Reply
    ensures { (replied result (whole core.new dues.new amounts.new) ≡ answer executive (whole core.old dues.old amounts.old) e)
        × (told.new ≡ event_numbers (whole core.old dues.old amounts.old) e) }
{
    let d = Done::from(executive::event(*core, dues, amounts, told, e));
    *core = d.core;
    d.reply
}
