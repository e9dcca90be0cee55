// The listing of a trace in a lent buffer.
#![tactic(auto)]

ghost use Rattle.std.specs.Prelude.{◌≡◌, ◌≤◌, length};
ghost use Rattle.listing.specs.Listing.{listed_of, buffer_of, largest};

mod lines; // lines.rt: one line of each kind
mod replay; // replay.rt: the lines of a file

use base::Refusal;
use text::put_word;

// A buffer of so many bytes is long enough for every file's listing.
pub const LARGEST: usize = 54000;

// 0 and how many bytes were written, or 12 and 0 where the buffer is too short. A number and no `Result`: C gets it.
#[repr(C)]
#[derive(Clone, Copy)]
pub struct Listed {
    pub status: u8,
    pub length: usize,
}

// Writes the listing of a file into a buffer; where it is too short for it, no byte is changed.
pub fn listing(file: &[u8], out: &mut [u8]) -> Listed
    ensures value { result ≡ listed_of file.now (length out.old) }
    ensures out_after { out.new ≡ buffer_of file.now out.old }
    ensures status_value { largest ≤ length out.old → result.status ≡ 0 }
{
    let mut text = [0u8; LARGEST];
    let length = replay::put_listing(&mut text, file);
    if out.len() < length {
        return Listed {
            status: u8::from(Refusal::NoRoom),
            length: 0,
        };
    }
    put_word(out, 0, &text[..length]);
    Listed { status: 0, length }
}
