// The shares at the end of a trace's replay, as text, for programs in other languages: a static library's exported function.
//
// A slice is a pointer and then a length, and a lent array is a pointer to its first byte. It has no `requires`: any bytes may be handed
// in as a trace.
#![tactic(auto)]

ghost use Rattle.std.specs.Prelude.{◌≤◌, replicate};
ghost use Rattle.text.specs.Placed.{Put};
ghost use Rattle.share_listing.specs.ShareListing.{share_listing, largest};

use share_listing::LARGEST;

// Puts the lines of a file at a buffer's start, with zeros after them, whatever it held; how many bytes they are.
#[unsafe(no_mangle)]
pub extern "C" fn thawonlai_share_listing(file: &[u8], out: &mut [u8; LARGEST]) -> usize
    ensures put { Put (replicate largest 0) 0 (share_listing file.now) out.new result }
    ensures within { result ≤ largest }
{
    share_listing::thawonlai_share_listing(file, out)
}
