// The listing of a trace file for programs in other languages: a static library's exported function. A slice is a pointer and then a length.
// It has no `requires`: any file and any buffer may be handed in.
#![tactic(auto)]

ghost use Rattle.std.specs.Prelude.{◌≡◌, ◌≤◌, length};
ghost use Rattle.listing.specs.Listing.{listed_of, buffer_of, largest};

use listing::Listed;

// Writes the listing of a trace file into a buffer; where it is too short for it, no byte is changed.
#[unsafe(no_mangle)]
pub extern "C" fn thawonlai_listing(file: &[u8], out: &mut [u8]) -> Listed
    ensures value { result ≡ listed_of file.now (length out.old) }
    ensures out_after { out.new ≡ buffer_of file.now out.old }
    ensures status_value { largest ≤ length out.old → result.status ≡ 0 }
{
    listing::listing(file, out)
}
