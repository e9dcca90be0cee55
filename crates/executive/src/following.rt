// The event after the one that is answered.
ghost use Rattle.std.specs.Prelude.{◌≡◌, true, false, cond, not, eqb, ◌*◌, replicate, is_some};
ghost use Rattle.records.specs.Ranges.{most_threads};
ghost use Rattle.reports.specs.Tallies.{per_thread};
ghost use Rattle.executive.specs.Private.{following_of};

use events::BLOCK;
use records::Event;
use reports::NUMBERS;

// Whether nothing was told: no moment has fallen, and the event is no block.
fn silent(quiet: bool, kind: u8) -> bool
    ensures { result ≡ cond quiet (not (eqb kind 1)) false }
{
    quiet && kind != BLOCK
}

// The first of at most `left` events of a file from an offset on, with the offset after it. Where there is one, the numbers are zeros for
// it: after a quiet event that is no block they still are, and nothing is written.
pub(super) fn following(
    file: &[u8],
    offset: usize,
    left: usize,
    e: Event,
    told: &mut [u64; NUMBERS],
    quiet: bool,
) -> Option<(Event, usize)>
    requires { quiet ≡ true → (e.kind ≡ 1 → ⊥) → told.old ≡ replicate (most_threads * per_thread) 0 }
    ensures value { result ≡ following_of file.now offset left }
    ensures told_after { told.new ≡ cond (is_some result) (replicate (most_threads * per_thread) 0) told.old }
{
    if left == 0 {
        return None;
    }
    let found = trace_reader::next_event(file, offset)?;
    super::clear(silent(quiet, e.kind), told);
    Some(found)
}
