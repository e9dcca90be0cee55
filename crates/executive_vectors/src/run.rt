// What a line of the input does.
use super::line::{EXPECTED, Line, NUMBERS};
use super::report::Tally;
use super::whole::Answered;
use super::{change, look, make, report, whole};
use records::{Event, Header, Parameters, THREADS};
use state::State;
use trace_records::{NO_EVENT, NO_PARAMETERS};

// The cases so far, the table of the next opening, the state that events are given to, and a state that is held beside it.
#[derive(Clone, Copy)]
pub struct Run {
    pub tally: Tally,
    pub table: [Parameters; THREADS],
    pub state: State,
    pub held: State,
}

// What a case gave: four numbers, and the state after it.
#[derive(Clone, Copy)]
struct Outcome {
    got: [u64; 4],
    state: State,
}

pub(super) fn start() -> Run {
    Run {
        tally: Tally { cases: 0, wrong: 0 },
        table: [NO_PARAMETERS; THREADS],
        state: make::zeros(),
        held: make::zeros(),
    }
}

// 0 where the state is as the status says: sound and at the time, or as it was before; else 1.
fn fault(before: State, a: Answered, time: u64) -> u64 {
    let right = if a.status == 0 {
        whole::sound(a.state) && a.state.now == time
    } else {
        a.state == before
    };
    u64::from(!right)
}

fn outcome_of(before: State, a: Answered, time: u64) -> Outcome {
    Outcome {
        got: [
            u64::from(a.status),
            u64::from(a.running),
            a.next,
            fault(before, a, time),
        ],
        state: a.state,
    }
}

// An opening of the table: start time and N. Where it is refused there are no threads and zeros.
fn opened(table: [Parameters; THREADS], x: [u64; NUMBERS]) -> Outcome {
    let header = Header {
        n: change::word(x[1]),
        start: x[0],
    };
    outcome_of(make::zeros(), whole::open(header, table), header.start)
}

fn given(before: State, e: Event) -> Outcome {
    outcome_of(before, whole::event(before, e), e.time)
}

// Up to five fields changed, each by its number, its place and its value.
fn varied(s: State, x: [u64; NUMBERS]) -> State {
    let mut r = s;
    for k in 0..5 {
        change::change(&mut r, x[3 * k], x[3 * k + 1], x[3 * k + 2]);
    }
    r
}

// A clock reading at the time now leaves every field as it was, and is refused exactly where the state is not sound.
fn judged(s: State) -> [u64; 4] {
    let e = Event {
        time: s.now,
        ..NO_EVENT
    };
    let a = whole::event(s, e);
    let right = a.state == s && whole::sound(s) == (a.status == 0);
    [
        u64::from(a.status),
        u64::from(a.running),
        a.next,
        u64::from(!right),
    ]
}

// Parameters at opening and by a set of thread 0.
fn tried(s: State, p: Parameters) -> [u64; 4] {
    let a = whole::open(Header { n: 1, start: 0 }, [p; THREADS]);
    let e = Event {
        time: s.now,
        kind: 4,
        thread: 0,
        parameters: Parameters { flag: 0, ..p },
    };
    let b = whole::event(s, e);
    [
        u64::from(a.status),
        u64::from(b.status),
        fault(make::zeros(), a, 0),
        fault(s, b, s.now),
    ]
}

// A case that leaves the state as it is; 99 where it asks for what there is not.
fn seen(s: State, held: State, op: u8, x: [u64; NUMBERS]) -> [u64; 4] {
    match op {
        b'j' => judged(varied(held, x)),
        b'p' => tried(s, make::parameters(x, 0)),
        b'i' => [u64::from(s != held), 0, 0, 0],
        _ => look::seen(s, op, x[0] as usize).unwrap_or([99; 4]),
    }
}

fn tested(r: Run, op: u8, x: [u64; NUMBERS]) -> Outcome {
    match op {
        b'o' => opened(r.table, x),
        b'c' | b'b' | b'y' | b'w' | b's' | b'k' => given(r.state, make::event(op, x)),
        _ => Outcome {
            got: seen(r.state, r.held, op, x),
            state: r.state,
        },
    }
}

fn with_row(table: [Parameters; THREADS], x: [u64; NUMBERS]) -> [Parameters; THREADS] {
    let mut t = table;
    let i = x[0] as usize;
    if i < THREADS {
        t[i] = make::parameters(x, 1);
    }
    t
}

// Runs a line of the input.
pub(super) fn step(r: Run, l: Line, file: &[u8]) -> Run {
    let x = l.numbers;
    match l.op {
        None | Some(b'#') => r,
        Some(b'f') => Run {
            table: [make::parameters(x, 0); THREADS],
            ..r
        },
        Some(b'r') => Run {
            table: with_row(r.table, x),
            ..r
        },
        Some(b'h') => Run { held: r.state, ..r },
        Some(b'v') => Run {
            state: varied(r.held, x),
            ..r
        },
        Some(b'e') => Run {
            state: r.held,
            held: r.state,
            ..r
        },
        Some(op) => {
            let o = tested(r, op, x);
            report::name(file, l.from, l.command);
            let want = [
                x[EXPECTED],
                x[EXPECTED + 1],
                x[EXPECTED + 2],
                x[EXPECTED + 3],
            ];
            Run {
                tally: report::compared(r.tally, o.got, want),
                state: o.state,
                ..r
            }
        }
    }
}
