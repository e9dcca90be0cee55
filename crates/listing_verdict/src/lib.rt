// Another kernel's listing of a trace, held to ours.
#![tactic(auto)]

ghost use Rattle.std.specs.Prelude.{◌≡◌};
ghost use Rattle.text_lines.specs.Lines.{first_difference};
ghost use Rattle.listing.specs.Listing.{listing_of};
ghost use Rattle.listing_check.specs.Verdict.{verdict_of};

use listing::LARGEST;
use listing_check::Verdict;

// The first line in which a listing differs from ours, or 0.
fn compared(file: &[u8], theirs: &[u8]) -> usize
    ensures { result ≡ first_difference (listing_of file.now) theirs.now }
{
    let mut ours = [0u8; LARGEST];
    let listed = listing::listing(file, &mut ours);
    text_lines::first_difference(&ours[..listed.length], theirs)
}

// The verdict on any bytes as the listing of any bytes as a trace. A refused trace has no listing to compare: its `refused n` line is
// never looked at.
pub fn verdict_of(file: &[u8], theirs: &[u8]) -> Verdict
    ensures { result ≡ verdict_of file.now theirs.now }
{
    let status = replay_begin::begin_status(file);
    if status != 0 {
        return Verdict::Refused(status);
    }
    match compared(file, theirs) {
        0 => Verdict::Same,
        line => Verdict::Differs(line),
    }
}
