// The passing of time over the executive's state.
#![tactic(auto)]

ghost use Rattle.std.specs.Prelude.{◌≡◌, true, false, ◌+◌, ◌*◌, ◌<◌, ◌≤◌, ◌^◌, eqb, replicate};
ghost use Rattle.records.specs.Ranges.{most_threads, last_time, longest_step};
ghost use Rattle.account.specs.Rules.{Room, slot_for, slots_after, without_first};
ghost use Rattle.sporadic.specs.Rules.{due_of, limit_effect, return_effect};
ghost use Rattle.sporadic.specs.declared.Place.TheVariants.{Stays, Low, LowThenUpper, Upper};
ghost use Rattle.reports.specs.Tallies.{per_thread, numbers, Tellable, more_of, back_tally, tally, plus};
ghost use Rattle.ready.specs.Lists.{moved};
ghost use Rattle.ready.specs.Word.{occupancy};
ghost use Rattle.ready.specs.Rules.{Movable};
ghost use Rattle.rows.specs.Rows.{slots_at, with_slots};
ghost use Rattle.state.specs.Sound.{sound_state};
ghost use Rattle.state.specs.Updates.{whole};
ghost use Rattle.thread.specs.Thread.{is_blocked, with_left, with_server};
ghost use Rattle.ticks.specs.Running.{earlier};
ghost use Rattle.moments.specs.Changes.{sent_to};
ghost use Rattle.moments.specs.Moments.{passed};
ghost use Rattle.moments.specs.Reports.{reported};

use account::ENTRIES;
use ready::LIST_BYTES;
use records::SCHED_RR;
use reports::NUMBERS;
use rows::Slots;
use sporadic::{Effect, Place};
use state::Core;
use thread::Thread;

// Whether the earlier of the two is the limit: where both fall on one instant, the limit comes first.
fn limit_first(limit: u64, due: u64) -> bool
    ensures { result ≡ eqb (earlier limit due) limit }
{
    if due == 0 {
        return true;
    }
    if 0 < limit {
        return limit <= due;
    }
    false
}

// An RR thread with a full quantum.
fn with_full_quantum(t: Thread) -> Thread
    ensures { result ≡ with_left t.parameters.budget t }
{
    thread_updates::with_left(t, t.parameters.budget)
}

// A thread whose first entry came back stays where it is or goes to its upper list; the answer is the word of the lists as they then are.
fn send_up(word: u32, lists: &mut [u8; LIST_BYTES], i: usize, t: Thread, e: Effect) -> u32
    requires { (i < 256) × (e.place ≡ Low → ⊥) × (e.place ≡ LowThenUpper → ⊥)
        × (e.place ≡ Stays → word ≡ occupancy lists.old)
        × (e.place ≡ Upper → Movable word i t.parameters.low t.parameters.priority lists.old) }
    ensures { (lists.new ≡ sent_to e.place i t.parameters lists.old)
        × (result ≡ occupancy (sent_to e.place i t.parameters lists.old)) }
{
    let p = t.parameters;
    match e.place {
        Place::Upper => ready_tail::move_to_tail(lists, word, i as u8, p.low, p.priority),
        Place::Stays | Place::Low | Place::LowThenUpper => word,
    }
}

// A thread at its limit goes to its low list, and on to its upper one where what it had used came back at once.
fn send_down(word: u32, lists: &mut [u8; LIST_BYTES], i: u8, t: Thread, e: Effect) -> u32
    requires { (e.place ≡ Upper → ⊥)
        × (e.place ≡ Stays → word ≡ occupancy lists.old)
        × (e.place ≡ Low → Movable word i t.parameters.priority t.parameters.low lists.old)
        × (e.place ≡ LowThenUpper → Movable word i t.parameters.priority t.parameters.low lists.old
        × Movable (occupancy (moved i t.parameters.priority t.parameters.low lists.old)) i t.parameters.low t.parameters.priority (moved i t.parameters.priority t.parameters.low lists.old)) }
    ensures { (lists.new ≡ sent_to e.place i t.parameters lists.old)
        × (result ≡ occupancy (sent_to e.place i t.parameters lists.old)) }
{
    let p = t.parameters;
    match e.place {
        Place::Low => ready_tail::move_to_tail(lists, word, i, p.priority, p.low),
        Place::LowThenUpper => {
            let w = ready_tail::move_to_tail(lists, word, i, p.priority, p.low);
            ready_tail::move_to_tail(lists, w, i, p.low, p.priority)
        }
        Place::Stays | Place::Upper => word,
    }
}

// A thread as a rule leaves it.
fn served(t: Thread, e: Effect) -> Thread
    ensures { result ≡ with_server e.server t }
{
    thread_updates::with_server(t, e.server)
}

// What happens to a thread's account where the first of its `count` entries, of this amount, comes back.
fn returned(time: u64, t: Thread, count: u8, amount: u64) -> Effect
    ensures { result ≡ return_effect time (is_blocked t) t.parameters count amount t.server }
{
    effects::return_effect(t.parameters, t.server, count, amount, 0 < t.blocked, time)
}

// What happens to the account of the running thread at its limit.
fn reached(time: u64, t: Thread) -> Effect
    requires { due_of t.parameters t.server < 2 ^ 64 }
    ensures { result ≡ limit_effect time false t.parameters t.server }
{
    effects::limit_effect(t.parameters, t.server, false, time)
}

// Thread i's first entry goes, and what came back is told.
fn take_first(dues: &mut Slots, amounts: &mut Slots, told: &mut [u64; NUMBERS], i: usize, back: u64)
    requires { (i < most_threads) × Tellable (back + 1) told.old }
    ensures { (dues.new ≡ with_slots i (without_first (slots_at i dues.old)) dues.old)
        × (amounts.new ≡ with_slots i (without_first (slots_at i amounts.old)) amounts.old)
        × (told.new ≡ more_of i (back_tally back) told.old) }
{
    row_entries::remove_first(dues, i);
    row_entries::remove_first(amounts, i);
    reports::tell_back(told, i, back);
}

// An entry of this due time and amount, none where the amount is 0, stands among thread i's `count` where its due time belongs; the limit and
// what came back at once are told.
fn put_entry(
    dues: &mut Slots,
    amounts: &mut Slots,
    told: &mut [u64; NUMBERS],
    i: usize,
    count: u8,
    due: u64,
    amount: u64,
    back: u64,
)
    requires { (i < most_threads) × Room false amount count × Tellable (back + 2) told.old }
    ensures { (dues.new ≡ with_slots i (slots_after false amount (slot_for due count (slots_at i dues.old)) count due (slots_at i dues.old)) dues.old)
        × (amounts.new ≡ with_slots i (slots_after false amount (slot_for due count (slots_at i dues.old)) count amount (slots_at i amounts.old)) amounts.old)
        × (told.new ≡ more_of i (plus (tally 1 0 0 0) (back_tally back)) told.old) }
{
    reports::tell_limit(told, i, back);
    if amount == 0 {
        return;
    }
    row_entries::insert_entry(dues, amounts, i, usize::from(count), due, amount);
}

// The state at the time t, with what is told of the way to it. Each turn does one thing: what is due now comes back, an entry at a time and by thread
// number; or the ticks up to the next moment are charged, and the limit or the end of the quantum that falls on it comes first.
// Where no moment falls up to t, the ticks up to it are all that is left. The word of the pending threads is kept from search to search, since a turn
// changes one count at most. The core is changed in place: a call that took it would copy it. A thread is stored before anything else of the core, so
// that what stays of it is not written.
pub fn advance(
    mut s: Core,
    dues: &mut Slots,
    amounts: &mut Slots,
    told: &mut [u64; NUMBERS],
    t: u64,
) -> Core
    requires { (sound_state (whole s dues.old amounts.old) ≡ true) × (s.now ≤ t) × (t ≤ last_time) × (t ≤ s.now + longest_step)
        × (told.old ≡ replicate (most_threads * per_thread) 0) }
    ensures amounts_after { whole result dues.new amounts.new ≡ passed (whole s dues.old amounts.old) t }
    ensures numbers { told.new ≡ numbers (reported (whole s dues.old amounts.old) t) }
{
    let mut waiting = pending_words::pending_word(&s.counts);
    let mut x = due_search::next_in_word(waiting, dues, 0);
    loop {
        if moment_order::due_by(x.due, s.now) {
            let j = x.thread;
            let w = s.threads[j];
            let count = s.counts[j];
            let e = returned(s.now, w, count, amounts[j * ENTRIES]);
            let changed = served(w, e);
            s.threads[j] = changed;
            s.word = send_up(s.word, &mut s.lists, j, w, e);
            let pending = account::count_after(e.first, e.amount, count);
            s.counts[j] = pending;
            take_first(dues, amounts, told, j, e.back);
            waiting = pending_words::word_after(waiting, j, pending);
            x = due_search::next_in_word(waiting, dues, s.now);
            continue;
        }
        let p = ready::highest(s.word);
        let h = running::head_at(&s.lists, p);
        let i = usize::from(h);
        let before = s.threads[i];
        let limit = next_moment::limit_at(s.now, p, before);
        let m = moment_order::earlier_of(limit, x.due);
        if !moment_order::due_by(m, t) {
            let k = t - s.now;
            let rest = ticks::charged_thread(p, k, before);
            s.threads[i] = rest;
            s.idle = ticks::charged_idle(p, k, s.idle);
            s.now = t;
            return s;
        }
        let k = m - s.now;
        let after = ticks::charged_thread(p, k, before);
        s.idle = ticks::charged_idle(p, k, s.idle);
        s.now = m;
        if !limit_first(limit, x.due) {
            s.threads[i] = after;
            continue;
        }
        if after.parameters.policy == SCHED_RR {
            let full = with_full_quantum(after);
            s.threads[i] = full;
            ready_removal::rotate(&mut s.lists, p);
            reports::tell_quantum(told, i);
            continue;
        }
        let e = reached(m, after);
        let changed = served(after, e);
        s.threads[i] = changed;
        s.word = send_down(s.word, &mut s.lists, h, after, e);
        let count = s.counts[i];
        let pending = account::count_after(e.first, e.amount, count);
        s.counts[i] = pending;
        put_entry(dues, amounts, told, i, count, e.due, e.amount, e.back);
        waiting = pending_words::word_after(waiting, i, pending);
        let d = dues[i * ENTRIES];
        x = next_due::after_limit(x, i, pending, d);
    }
}
