// Four numbers of a state.
use account::ENTRIES;
use ready::LIST_BYTES;
use records::THREADS;
use state::State;

// The length of list p and its first three places.
fn list(lists: [u8; LIST_BYTES], p: usize) -> Option<[u64; 4]> {
    if p < 1 || 32 < p {
        return None;
    }
    let at = (p - 1) * 33;
    Some([
        u64::from(lists[at]),
        u64::from(lists[at + 1]),
        u64::from(lists[at + 2]),
        u64::from(lists[at + 3]),
    ])
}

// What the command asks of thread or list i, where there is such a command, thread or list.
pub(super) fn seen(s: State, op: u8, i: usize) -> Option<[u64; 4]> {
    if op == b'l' {
        return list(s.lists, i);
    }
    if THREADS <= i {
        return None;
    }
    let t = s.threads[i];
    let v = t.server;
    let k = i * ENTRIES;
    match op {
        b'a' => Some([v.capacity, v.used, v.activation, u64::from(s.counts[i])]),
        b'd' => Some([s.dues[k], s.amounts[k], s.dues[k + 1], s.amounts[k + 1]]),
        b't' => Some([t.total, t.left, u64::from(t.blocked), s.idle]),
        _ => None,
    }
}
