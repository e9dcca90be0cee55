// Whether the lists and the word are sound for a placement of the threads.
#![tactic(auto)]

ghost use Rattle.std.specs.Prelude.{◌≡◌, ◌≤◌, length, get_or};
ghost use Rattle.base.specs.Tests.{all, zeros};
ghost use Rattle.ready.specs.Lists.{row_bytes};
ghost use Rattle.ready.specs.Sound.{sound_lists};
ghost use Rattle.ready_sound.specs.Private.{Struck, RowStruck};

use ready::LIST_BYTES;
use records::THREADS;

// Whether all numbers are 0.
fn all_zero(s: &[u8]) -> bool
    ensures { result ≡ all (zeros s.now) }
{
    // the bits of all of them, to the end in any case: compiled as sixteen bytes at a time
    let mut bits: u8 = 0;
    for x in s {
        bits |= *x;
    }
    bits == 0
}

// Strikes the threads of s off `left`, where each must still have the place p.
fn strike(s: &[u8], p: u8, left: &mut [u8; THREADS]) -> bool
    requires { 1 ≤ p }
    ensures { Struck p s.now left.old left.new result }
{
    for x in s {
        let i = usize::from(*x);
        if THREADS <= i {
            return false;
        }
        if left[i] != p {
            return false;
        }
        left[i] = 0;
    }
    true
}

// Whether the list at the head of `part` holds a thread, all behind its threads is 0, and they, each with the place p, could be
// struck off `left`. The part is the row of list p, and may go on behind it.
fn strike_row(part: &[u8], p: u8, left: &mut [u8; THREADS]) -> bool
    requires { (1 ≤ p) × (row_bytes ≤ length part.now) }
    ensures { RowStruck p part.now left.old left.new result }
{
    let n = usize::from(part[0]);
    if n < 1 {
        return false;
    }
    if THREADS < n {
        return false;
    }
    if !all_zero(&part[n + 1..]) {
        return false;
    }
    strike(&part[1..n + 1], p, left)
}

// Whether lists and word are sound for the places: thread i must stand once in the list of the priority places[i], and in
// no other; at 0 it must stand in none. Any contents are decided.
//
// One pass over the lists that the word names, from the highest down, strikes each thread off a copy of the places; all between them is 0,
// lengths included, and at the end no place is left.
pub fn sound(lists: &[u8; LIST_BYTES], word: u32, places: [u8; THREADS]) -> bool
    ensures { result ≡ sound_lists (λ i. get_or places i 0) word lists.now }
{
    let mut left = places;
    let mut rest = word;
    let mut end: usize = LIST_BYTES;
    while 0 < rest {
        let p = ready::highest(rest);
        let at = ready::row_start(p);
        if !strike_row(&lists[at..end], p, &mut left) {
            return false;
        }
        end = at;
        rest -= ready::bit(p);
    }
    if !all_zero(&lists[..end]) {
        return false;
    }
    all_zero(&left)
}
