// Who runs: the thread at the head of the highest list that holds one.
#![tactic(auto)]

ghost use Rattle.std.specs.Prelude.{◌≡◌, false, cond, eqb};
ghost use Rattle.ready.specs.Lists.{head_of};
ghost use Rattle.ready.specs.Word.{highest_of};
ghost use Rattle.ready.specs.Rules.{Held};

use ready::LIST_BYTES;

// The thread at the head of list p, 0 where p is 0.
pub fn head_at(lists: &[u8; LIST_BYTES], p: u8) -> u8
    requires { eqb p 0 ≡ false → Held p lists.now }
    ensures { result ≡ cond (eqb p 0) 0 (head_of p lists.now) }
{
    if p < 1 {
        return 0;
    }
    ready::head(lists, p)
}

// The running thread, 255 for none: a number and no Option, since C and the trace's answers have it.
pub fn running(word: u32, lists: &[u8; LIST_BYTES]) -> u8
    requires { eqb (highest_of word) 0 ≡ false → Held (highest_of word) lists.now }
    ensures { result ≡ cond (eqb (highest_of word) 0) 255 (head_of (highest_of word) lists.now) }
{
    let p = ready::highest(word);
    if p == 0 {
        return 255;
    }
    head_at(lists, p)
}
