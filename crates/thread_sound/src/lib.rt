// Whether a thread below N is sound, with its slots, for any contents. No state.
#![tactic(auto)]

ghost use Rattle.std.specs.Prelude.{◌≡◌, [], ◌∷◌, ◌-◌, ◌≤◌, ◌<◌, length, take, drop};
ghost use Rattle.base.specs.Tests.{all, zeros};
ghost use Rattle.records.specs.Ranges.{most_threads};
ghost use Rattle.rows.specs.Rows.{all_slots, pending_of};
ghost use Rattle.state.specs.Sound.{server_tests, left_tests, present_fields, present_test};

use account::ENTRIES;
use records::{SCHED_RR, THREADS};
use sporadic::Server;
use thread::Thread;

// The largest max_repl.
const MOST_REPL: u8 = ENTRIES as u8;

// Whether capacity, U and activation time are 0.
fn no_server(s: Server) -> bool
    ensures { result ≡ all (server_tests s) }
{
    if s.capacity != 0 {
        return false;
    }
    if s.used != 0 {
        return false;
    }
    s.activation == 0
}

// Whether the quantum left is 1 to quantum for RR, and 0 for any other.
fn left_holds(t: Thread) -> bool
    ensures { result ≡ all (left_tests t) }
{
    if t.parameters.policy != SCHED_RR {
        return t.left == 0;
    }
    if t.left < 1 {
        return false;
    }
    t.left <= t.parameters.budget
}

// Whether a thread below N is in range; its account is asked apart.
fn present_fields(t: Thread) -> bool
    ensures { result ≡ all (present_fields t) }
{
    if !records::in_range(t.parameters, MOST_REPL) {
        return false;
    }
    if t.parameters.flag != 0 {
        return false;
    }
    if 1 < t.blocked {
        return false;
    }
    left_holds(t)
}

// Whether no slot from `from` on up to `end` holds a number.
fn clear_slots<'a>(from: usize, end: usize, dues: &'a [u64], amounts: &'a [u64]) -> bool
    requires { (from ≤ end) × (end ≤ all_slots) × (length dues.now ≡ all_slots) × (length amounts.now ≡ all_slots) }
    ensures { result ≡ all (all (zeros (take (end - from) (drop from dues.now))) ∷ all (zeros (take (end - from) (drop from amounts.now))) ∷ []) }
{
    slots_clear::clear(&dues[from..end], &amounts[from..end])
}

// Whether thread i, below N, is sound. Slices, so that any of such a length can be lent.
pub fn thread_holds<'a>(
    start: u64,
    time: u64,
    t: Thread,
    counts: &'a [u8; THREADS],
    dues: &'a [u64],
    amounts: &'a [u64],
    i: usize,
) -> bool
    requires { (i < most_threads) × (length dues.now ≡ all_slots) × (length amounts.now ≡ all_slots) }
    ensures { result ≡ present_test start time t (pending_of counts.now dues.now amounts.now i) }
{
    if !present_fields(t) {
        return false;
    }
    let from = i * ENTRIES;
    let end = from + ENTRIES;
    if SCHED_RR < t.parameters.policy {
        return account_lent::sound_lent(
            t.parameters,
            t.server,
            counts[i],
            &dues[from..end],
            &amounts[from..end],
            0 < t.blocked,
            start,
            time,
        );
    }
    if !no_server(t.server) {
        return false;
    }
    if counts[i] != 0 {
        return false;
    }
    clear_slots(from, end, dues, amounts)
}
