// The lines of the state that a file's last event left.
ghost use Rattle.std.specs.Prelude.{◌≤◌, length};
ghost use Rattle.text.specs.Placed.{Put};
ghost use Rattle.share_listing.specs.ShareListing.{share_listing, largest};

use rows::{SLOTS, Slots};
use trace_records::EVENTS;

// All lines of a file, or that of its refusal, from the buffer's start on.
pub(super) fn put_listing(out: &mut [u8], file: &[u8]) -> usize
    requires { largest ≤ length out.old }
    ensures put { Put out.old 0 (share_listing file.now) out.new result }
    ensures upper_bound { result ≤ largest }
{
    let mut dues = [0u64; SLOTS];
    let mut amounts = [0u64; SLOTS];
    let begun = replay_begin::begin(file, &mut dues, &mut amounts);
    if begun.status != 0 {
        return refusal_line::put_refusal(out, begun.status);
    }
    let last = replay_steps::last_answer(
        begun.answer,
        &mut dues,
        &mut amounts,
        file,
        begun.offset,
        EVENTS,
    );
    share_lines::put_shares(out, 0, last.core, &dues, &amounts)
}
