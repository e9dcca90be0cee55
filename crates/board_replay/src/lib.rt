// A replay of some of a trace file's events for programs in other languages. A library of its own: beside a listing's it would be a
// second caller of what steps a file, and cost the listing its stack.
#![tactic(auto)]

ghost use Rattle.std.specs.Prelude.{◌≡◌};
ghost use Rattle.answers.specs.Answer.{answer_of};
ghost use Rattle.board_replay.specs.Replayed.{replay_of};

use answers::Answer;
use rows::Slots;

// The answer to the last of a file's first `count` events, with the state after it; to the opening where there is none. The slots are
// lent, and left as that state has them.
#[unsafe(no_mangle)]
pub extern "C" fn thawonlai_replay(
    file: &[u8],
    count: usize,
    dues: &mut Slots,
    amounts: &mut Slots,
) -> Answer
    ensures { answer_of result dues.new amounts.new ≡ replay_of file.now count }
{
    let begun = replay_begin::begin(file, dues, amounts);
    if begun.status != 0 {
        return Answer {
            status: begun.status,
            running: 255,
            next: 0,
            core: begun.answer.core,
        };
    }
    replay_steps::last_answer(begun.answer, dues, amounts, file, begun.offset, count)
}
