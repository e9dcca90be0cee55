// A gap in a list is closed: where a thread leaves it, and where the head becomes the tail.
#![tactic(auto)]

ghost use Rattle.std.specs.Prelude.{◌≡◌, ◌+◌, ◌≤◌, ◌<◌};
ghost use Rattle.ready.specs.Lists.{list_bytes, head_of, removed, moved};
ghost use Rattle.ready.specs.Word.{occupancy};
ghost use Rattle.ready.specs.Rules.{Leavable, Rotatable};
ghost use Rattle.ready.specs.Private.{index_of, closed};

use ready::LIST_BYTES;

// How many numbers stand before the first i.
fn index_of(list: &[u8], i: u8) -> usize
    ensures { result ≡ index_of i list.now }
{
    list.iter().position(|x| *x == i).unwrap_or(list.len())
}

// The n numbers from `at` on without the first: the others move up, and the last place is 0.
fn close(lists: &mut [u8; LIST_BYTES], at: usize, n: usize)
    requires { (0 < n) × (at + n ≤ list_bytes) }
    ensures { lists.new ≡ closed lists.old at n }
{
    // a loop: `copy_within` would need memmove of a board
    let last = n - 1;
    for j in 0..last {
        lists[at + j] = lists[at + j + 1];
    }
    lists[at + last] = 0;
}

// Thread i leaves list p, and the others keep their order; the answer is the word of the lists as they then are.
pub fn remove(lists: &mut [u8; LIST_BYTES], word: u32, p: u8, i: u8) -> u32
    requires { Leavable word p i lists.old }
    ensures { (lists.new ≡ removed p i lists.old) × (result ≡ occupancy (removed p i lists.old)) }
{
    let at = ready::row_start(p);
    let n = lists[at];
    let k = usize::from(n);
    let j = index_of(&lists[at + 1..at + 1 + k], i);
    close(lists, at + 1 + j, k - j);
    lists[at] = n - 1;
    if n == 1 {
        return word - ready::bit(p);
    }
    word
}

// The head of list p becomes its tail, as at the end of a quantum; the word stays as it is.
pub fn rotate(lists: &mut [u8; LIST_BYTES], p: u8)
    requires { Rotatable p lists.old }
    ensures { lists.new ≡ moved (head_of p lists.old) p p lists.old }
{
    let at = ready::row_start(p);
    let n = usize::from(lists[at]);
    // a lone thread is head and tail
    if n < 2 {
        return;
    }
    let i = lists[at + 1];
    close(lists, at + 1, n);
    lists[at + n] = i;
}
