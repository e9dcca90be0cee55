// A state with one field changed, by the number of the field.
use records::Parameters;
use state::State;
use thread::Thread;

pub(super) fn byte(value: u64) -> u8 {
    (value % 256) as u8
}

pub(super) fn word(value: u64) -> u32 {
    (value % 4294967296) as u32
}

// 11 to 17: the parameters.
fn change_parameters(p: &mut Parameters, what: u64, value: u64) {
    match what {
        11 => p.policy = byte(value),
        12 => p.priority = byte(value),
        13 => p.low = byte(value),
        14 => p.max_repl = byte(value),
        15 => p.flag = word(value),
        16 => p.budget = value,
        17 => p.period = value,
        _ => {}
    }
}

// 11 to 26: a thread.
fn change_thread(t: &mut Thread, what: u64, value: u64) {
    match what {
        21 => t.blocked = byte(value),
        22 => t.total = value,
        23 => t.left = value,
        24 => t.server.capacity = value,
        25 => t.server.used = value,
        26 => t.server.activation = value,
        _ => change_parameters(&mut t.parameters, what, value),
    }
}

// 1 to 5: N, the start time, the time now, the idle time and the word.
fn change_clocks(s: &mut State, what: u64, value: u64) {
    match what {
        1 => s.header.n = word(value),
        2 => s.header.start = value,
        3 => s.now = value,
        4 => s.idle = value,
        5 => s.word = word(value),
        _ => {}
    }
}

// Place `at`, where there is one.
fn put<T: Copy>(places: &mut [T], at: usize, x: T) {
    if at < places.len() {
        places[at] = x;
    }
}

// Changes the field `what`, at `place`, to `value`. 11 to 26 are of thread `place`, 31 is its pending count, 32 a due and 33 an
// amount, thread i's at the places 8 i to 8 i + 7; 34 is a byte of the lists.
pub(super) fn change(s: &mut State, what: u64, place: u64, value: u64) {
    let at = place as usize;
    match what {
        0..=10 => change_clocks(s, what, value),
        11..=30 => {
            if at < s.threads.len() {
                change_thread(&mut s.threads[at], what, value);
            }
        }
        31 => put(&mut s.counts, at, byte(value)),
        32 => put(&mut s.dues, at, value),
        33 => put(&mut s.amounts, at, value),
        _ => put(&mut s.lists, at, byte(value)),
    }
}
