// The test that a state is sound, for any contents: a Core and its lent slots, part by part.
#![tactic(auto)]

ghost use Rattle.std.specs.Prelude.{◌≡◌};
ghost use Rattle.state.specs.Sound.{sound_state};
ghost use Rattle.state.specs.Updates.{whole};

use rows::Slots;
use state::Core;

// Whether a state is sound, for any contents.
pub fn sound<'a>(c: Core, dues: &'a Slots, amounts: &'a Slots) -> bool
    ensures { result ≡ sound_state (whole c dues.now amounts.now) }
{
    parts_sound::sound_parts(
        c.header, c.now, c.idle, c.word, c.threads, &c.counts, dues, amounts, &c.lists,
    )
}
