// The check of another kernel's listing for programs in other languages: a static library's exported function, beside those of `board` and
// `board_trace`.
//
// A struct is laid out as C lays it out, and a slice is a pointer and then a length.
// It has no `requires`: any bytes may be handed in as a trace and as a listing.
#![tactic(auto)]

ghost use Rattle.std.specs.Prelude.{◌≡◌};
ghost use Rattle.listing_check.specs.Verdict.{verdict_of, checked_of};

use listing_check::Checked;

// The verdict on a listing of a trace, in numbers.
#[unsafe(no_mangle)]
pub extern "C" fn thawonlai_check(file: &[u8], theirs: &[u8]) -> Checked
    ensures { result ≡ checked_of (verdict_of file.now theirs.now) }
{
    let v = listing_verdict::verdict_of(file, theirs);
    listing_check::checked_of(v)
}
