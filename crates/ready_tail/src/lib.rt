// A thread becomes the tail of a list: one that stands in none, or one that leaves its list for it.
#![tactic(auto)]

ghost use Rattle.std.specs.Prelude.{◌≡◌};
ghost use Rattle.ready.specs.Lists.{appended, moved};
ghost use Rattle.ready.specs.Word.{occupancy};
ghost use Rattle.ready.specs.Rules.{Joinable, Movable};

use ready::LIST_BYTES;

// Thread i becomes the tail of list p; the answer is the word of the lists as they then are.
pub fn append(lists: &mut [u8; LIST_BYTES], word: u32, p: u8, i: u8) -> u32
    requires { Joinable word p lists.old }
    ensures { (lists.new ≡ appended p i lists.old) × (result ≡ occupancy (appended p i lists.old)) }
{
    let at = ready::row_start(p);
    let n = lists[at];
    lists[at + 1 + usize::from(n)] = i;
    lists[at] = n + 1;
    if n == 0 {
        return word + ready::bit(p);
    }
    word
}

// Thread i leaves list `from` and becomes the tail of list `to`, the same or another.
pub fn move_to_tail(lists: &mut [u8; LIST_BYTES], word: u32, i: u8, from: u8, to: u8) -> u32
    requires { Movable word i from to lists.old }
    ensures { (lists.new ≡ moved i from to lists.old) × (result ≡ occupancy (moved i from to lists.old)) }
{
    let w = ready_removal::remove(lists, word, from, i);
    append(lists, w, to, i)
}
