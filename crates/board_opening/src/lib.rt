// Opening a state and the test of one for programs in other languages: a static library's exported functions, beside that of `board`.
//
// A struct is laid out as C lays it out, a lent `Core` is a pointer to one, and a lent array is a pointer to its first number. None has
// a `requires`: any values may be handed in, and bad ones get their status.
#![tactic(auto)]

ghost use Rattle.std.specs.Prelude.{◌≡◌, cond};
ghost use Rattle.state.specs.Sound.{sound_state};
ghost use Rattle.state.specs.Updates.{whole};
ghost use Rattle.events.specs.Opening.{opening};
ghost use Rattle.answers.specs.Answer.{answer_of};

use answers::Answer;
use records::{Header, Parameters, THREADS};
use rows::Slots;
use state::Core;

// A thread table: an array on its own is not passed by value in C.
#[repr(C)]
#[derive(Clone, Copy)]
pub struct Table {
    pub threads: [Parameters; THREADS],
}

// Opens a state: the first N threads of the table, at the start time. The slots are lent, and left as the answer's state has them.
#[unsafe(no_mangle)]
pub extern "C" fn thawonlai_open(
    header: Header,
    table: Table,
    dues: &mut Slots,
    amounts: &mut Slots,
) -> Answer
    ensures { answer_of result dues.new amounts.new ≡ opening header table.threads }
{
    opening::open(header, table.threads, dues, amounts)
}

// 1 where a core by value is a sound state with its slots, else 0.
fn sound_number<'a>(c: Core, dues: &'a Slots, amounts: &'a Slots) -> u8
    ensures { result ≡ cond (sound_state (whole c dues.now amounts.now)) 1 0 }
{
    u8::from(state_sound::sound(c, dues, amounts))
}

// 1 where a lent state is sound, else 0.
#[unsafe(no_mangle)]
pub extern "C" fn thawonlai_sound<'c, 'a>(core: &'c Core, dues: &'a Slots, amounts: &'a Slots) -> u8
    ensures { result ≡ cond (sound_state (whole core.entry.now dues.now amounts.now)) 1 0 }
{
    sound_number(*core, dues, amounts)
}
