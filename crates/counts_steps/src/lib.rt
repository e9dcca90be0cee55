// What happened at the events of a file, event by event: the lines of each in a lent buffer, and the sums so far.
#![tactic(auto)]

ghost use Rattle.std.specs.Prelude.{◌≡◌, true, ◌+◌, ◌<◌, ◌≤◌, length};
ghost use Rattle.trace_records.specs.Layout.{most_events};
ghost use Rattle.state.specs.Sound.{sound_state};
ghost use Rattle.state.specs.Updates.{whole};
ghost use Rattle.text.specs.Placed.{Put};
ghost use Rattle.replay_steps.specs.FileSteps.{told_at};
ghost use Rattle.counts_text.specs.Room.{room};
ghost use Rattle.counts_text.specs.Sums.{added};
ghost use Rattle.counts_steps.specs.CountSteps.{text_at, counted_with, counted_at, SumsOf};

use reports::NUMBERS;
use rows::Slots;
use state::Core;

// What a step answers: whether there was an event, the offset after it, how many bytes its lines have, and the state that it left, without
// its slots. At the end the offset and the state are as given.
// A flag and no Option: `counted_at` says the offset and the state at the end too.
#[derive(Clone, Copy)]
pub struct Counted {
    pub more: bool,
    pub offset: usize,
    pub length: usize,
    pub core: Core,
}

// The event at an offset of the file, as event i, given to a sound state: its lines from the buffer's start on, and its numbers added to
// the sums.
pub fn count_at(
    c: Core,
    dues: &mut Slots,
    amounts: &mut Slots,
    sums: &mut [u64; NUMBERS],
    file: &[u8],
    offset: usize,
    i: usize,
    out: &mut [u8],
) -> Counted
    requires { (sound_state (whole c dues.old amounts.old) ≡ true) × (i < most_events) × SumsOf i sums.old × (room ≤ length out.old) }
    ensures amounts_after { counted_with result dues.new amounts.new ≡ counted_at i (whole c dues.old amounts.old) file.now offset }
    ensures put { Put out.old 0 (text_at i (whole c dues.old amounts.old) file.now offset) out.new result.length }
    ensures sums_after { sums.new ≡ added sums.old (told_at (whole c dues.old amounts.old) file.now offset) }
    ensures amounts_after_2 { (sound_state (whole result.core dues.new amounts.new) ≡ true) × SumsOf (i + 1) sums.new × (result.length ≤ room) }
{
    let n = c.header.n as usize;
    let mut told = [0u64; NUMBERS];
    let step = replay_steps::step_at(c, dues, amounts, &mut told, file, offset);
    counts_add::add(sums, &told);
    let core = step.answer.core;
    if !step.more {
        return Counted {
            more: false,
            offset: step.offset,
            length: 0,
            core,
        };
    }
    let length = counts_event::put_event(out, i as u64, step.answer.status, n, &told);
    Counted {
        more: true,
        offset: step.offset,
        length,
        core,
    }
}
