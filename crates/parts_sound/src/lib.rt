// The test that a state of these parts is sound, for any contents: thread by thread, then the lists, the word and the run times.
#![tactic(auto)]

ghost use Rattle.std.specs.Prelude.{◌≡◌};
ghost use Rattle.state.specs.Sound.{sound_state};
ghost use Rattle.state.specs.Updates.{state_of};

use ready::LIST_BYTES;
use records::{Header, LAST_TIME, THREADS};
use rows::Slots;
use thread::Thread;

// The most threads, as N is compared with it.
const MOST: u32 = THREADS as u32;

// Whether a state of these parts is sound, for any contents: the times that the threads have run are taken from what is
// left of the time, so that no sum wraps. Only the threads are copied: an array of structs can't be lent.
pub fn sound_parts<'a>(
    header: Header,
    time: u64,
    idle: u64,
    word: u32,
    threads: [Thread; THREADS],
    counts: &'a [u8; THREADS],
    dues: &'a Slots,
    amounts: &'a Slots,
    lists: &'a [u8; LIST_BYTES],
) -> bool
    ensures { result ≡ sound_state (state_of header time idle word threads counts.now dues.now amounts.now lists.now) }
{
    if header.n < 1 {
        return false;
    }
    if MOST < header.n {
        return false;
    }
    if time < header.start {
        return false;
    }
    if LAST_TIME < time {
        return false;
    }
    let n = header.n as usize;
    // two loops: a function that took the threads by value would copy them
    for k in n..THREADS {
        if !thread_absent::no_thread(threads[k], counts[k]) {
            return false;
        }
    }
    if !thread_absent::no_slots(n, dues, amounts) {
        return false;
    }
    let mut left = time - header.start;
    let mut places = [0u8; THREADS];
    for i in 0..n {
        let t = threads[i];
        if !thread_sound::thread_holds(header.start, time, t, counts, dues, amounts, i) {
            return false;
        }
        if left < t.total {
            return false;
        }
        places[i] = thread_place::assigned_place(t, counts[i]);
        left -= t.total;
    }
    if !ready_sound::sound(lists, word, places) {
        return false;
    }
    left == idle
}
