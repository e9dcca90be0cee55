// How a program that replays a trace ends.
#![tactic(auto)]

ghost use Rattle.std.specs.Prelude.{◌≡◌, cond, eqb};
ghost use Rattle.replay_steps.specs.FileSteps.{begun_of};
ghost use Rattle.command.specs.Ends.{number_of};

use command::Ending;

// Refused where the reader or the opening refuses the file, and so its text is that line alone (01 Replay 8); else done.
pub fn end_of(file: &[u8]) -> Ending
    ensures { number_of result ≡ cond (eqb (begun_of file.now).status 0) 0 1 }
{
    if replay_begin::begin_status(file) == 0 {
        return Ending::Done;
    }
    Ending::Refused
}
