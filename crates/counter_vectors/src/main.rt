// Runs stored cases of events at a reading of the counter: prints the time now and the reading; the status, the running thread and the
// next moment; the time then, and the four numbers that are told of thread 0. The expected output is the file stdout, written from 01 and
// 02 alone.
// A case is a function of its own: its title and its numbers.
#![tactic(auto)]

use counter::CounterEvent;
use records::{Header, LAST_TIME, Parameters, SCHED_RR, THREADS};
use reports::NUMBERS;
use rows::SLOTS;
use trace_records::NO_PARAMETERS;
use vector_lines::{last_number, number, title};

// A time shortly before the counter wraps, and one far from it.
const BEFORE_WRAP: u64 = 4294467296;

const EARLY: u64 = 1000;

fn fifo(priority: u8) -> Parameters {
    Parameters {
        priority,
        ..NO_PARAMETERS
    }
}

// Thread 0 is RR with a quantum of 300,000 ticks, and runs where the flag is 1; thread 1 is blocked below it.
fn threads(flag: u32) -> [Parameters; THREADS] {
    let mut table = [NO_PARAMETERS; THREADS];
    table[0] = Parameters {
        policy: SCHED_RR,
        flag,
        budget: 300000,
        ..fifo(10)
    };
    table[1] = fifo(5);
    table
}

// What is printed of an answer: its numbers, as C gets them.
#[derive(Clone, Copy)]
struct Shown {
    status: u8,
    running: u8,
    next: u64,
    now: u64,
    told: [u64; 4],
}

// An event on the state that is opened at `start` and whose time now is then put to `now`.
fn answer(flag: u32, start: u64, now: u64, e: CounterEvent) -> Shown {
    let mut dues = [7u64; SLOTS];
    let mut amounts = [9u64; SLOTS];
    let mut told = [5u64; NUMBERS];
    let opened = opening::open(
        Header { n: 2, start },
        threads(flag),
        &mut dues,
        &mut amounts,
    );
    let mut c = opened.core;
    c.now = now;
    let a = counter::event(c, &mut dues, &mut amounts, &mut told, e);
    Shown {
        status: a.status,
        running: a.running,
        next: a.next,
        now: a.core.now,
        told: [told[0], told[1], told[2], told[3]],
    }
}

fn print(now: u64, reading: u32, s: Shown) {
    number(now);
    number(u64::from(reading));
    number(u64::from(s.status));
    number(u64::from(s.running));
    number(s.next);
    number(s.now);
    number(s.told[0]);
    number(s.told[1]);
    number(s.told[2]);
    last_number(s.told[3]);
}

// An event with the parameters of a FIFO thread, or with none where the priority is 0.
fn show_with(now: u64, kind: u8, reading: u32, thread: u8, priority: u8) {
    let e = CounterEvent {
        reading,
        kind,
        thread,
        parameters: fifo(priority),
    };
    print(now, reading, answer(1, now, now, e));
}

fn show(now: u64, kind: u8, reading: u32, thread: u8) {
    show_with(now, kind, reading, thread, 0);
}

// An event on a state in which nothing runs where the flag is 0, and which isn't sound where `now` is not the start.
fn show_on(flag: u32, start: u64, now: u64, kind: u8, reading: u32) {
    let e = CounterEvent {
        reading,
        kind,
        thread: 0,
        parameters: NO_PARAMETERS,
    };
    print(now, reading, answer(flag, start, now, e));
}

fn across() {
    title(b"across the wrap: 1,000,000 ticks, one more, none, up to it, to it, back by one");
    show(BEFORE_WRAP, 0, 500000, 0);
    show(BEFORE_WRAP, 0, 500001, 0);
    show(BEFORE_WRAP, 0, 4294467296, 0);
    show(BEFORE_WRAP, 0, 4294967295, 0);
    show(BEFORE_WRAP, 0, 0, 0);
    show(BEFORE_WRAP, 0, 4294467295, 0);
}

fn back() {
    title(b"back by 1, by 4,293,967,295, and by one more, which passes for a step of 1,000,000");
    show(EARLY, 0, 999, 0);
    show(EARLY, 0, 1001001, 0);
    show(EARLY, 0, 1001000, 0);
}

fn last() {
    title(b"at the last time: the same time, back by one, one on");
    show(LAST_TIME, 0, 2764472320, 0);
    show(LAST_TIME, 0, 2764472319, 0);
    show(LAST_TIME, 0, 2764472321, 0);
}

fn unsound() {
    title(
        b"no sound state: the largest time now, with a step of 0, of 1, back by one, a wrong kind",
    );
    show_on(1, 0, u64::MAX, 0, 4294967295);
    show_on(1, 0, u64::MAX, 0, 0);
    show_on(1, 0, u64::MAX, 0, 4294967294);
    show_on(1, 0, u64::MAX, 5, 0);
}

fn refused() {
    title(b"back by one, and before that: a wrong kind, thread, parameters");
    show(EARLY, 5, 999, 0);
    show(EARLY, 3, 999, 2);
    show_with(EARLY, 0, 999, 0, 1);
    title(
        b"a wake of a thread that runs: back by one, and at the time now; a block where nothing runs",
    );
    show(EARLY, 3, 999, 0);
    show(EARLY, 3, 1000, 0);
    show_on(0, EARLY, EARLY, 1, 1000);
}

fn kinds() {
    title(b"each kind, 10 ticks across the wrap: clock, block, yield, wake, set");
    show(4294967290, 0, 4, 0);
    show(4294967290, 1, 4, 0);
    show(4294967290, 2, 4, 0);
    show(4294967290, 3, 4, 1);
    show_with(4294967290, 4, 4, 0, 3);
}

fn main() {
    across();
    back();
    last();
    unsound();
    refused();
    kinds();
}
