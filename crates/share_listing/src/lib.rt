// The shares at the end of a trace's replay, as text: for our program, and below `share_listing_c`.
#![tactic(auto)]

ghost use Rattle.std.specs.Prelude.{◌≤◌, replicate};
ghost use Rattle.text.specs.Placed.{Put};
ghost use Rattle.share_listing.specs.ShareListing.{share_listing, largest};

mod ending; // ending.rt: the state that a file's last event left

// So many bytes are enough for every file.
pub const LARGEST: usize = 4096;

// Puts the lines of a file at a buffer's start, with zeros after them, whatever it held; how many bytes they are.
pub fn thawonlai_share_listing(file: &[u8], out: &mut [u8; LARGEST]) -> usize
    ensures put { Put (replicate largest 0) 0 (share_listing file.now) out.new result }
    ensures within { result ≤ largest }
{
    *out = [0u8; LARGEST];
    ending::put_listing(out, file)
}
