// The executive on whole states: a core and its slots, joined.
use answers::Answer;
use records::{Event, Header, Parameters, THREADS};
use reports::NUMBERS;
use rows::SLOTS;
use state::{Core, State};

// An answer with its state whole: its numbers, as C gets them.
#[derive(Clone, Copy)]
pub struct Answered {
    pub status: u8,
    pub running: u8,
    pub next: u64,
    pub state: State,
}

fn core_of(s: State) -> Core {
    let State {
        header,
        now,
        idle,
        word,
        threads,
        counts,
        lists,
        ..
    } = s;
    Core {
        header,
        now,
        idle,
        word,
        threads,
        counts,
        lists,
    }
}

fn with_slots(a: Answer, dues: [u64; SLOTS], amounts: [u64; SLOTS]) -> Answered {
    let Answer {
        status,
        running,
        next,
        core,
    } = a;
    let Core {
        header,
        now,
        idle,
        word,
        threads,
        counts,
        lists,
    } = core;
    let state = State {
        header,
        now,
        idle,
        word,
        threads,
        counts,
        dues,
        amounts,
        lists,
    };
    Answered {
        status,
        running,
        next,
        state,
    }
}

// An opening, whatever the slots held before.
pub(super) fn open(header: Header, table: [Parameters; THREADS]) -> Answered {
    let mut dues = [7; SLOTS];
    let mut amounts = [9; SLOTS];
    let a = opening::open(header, table, &mut dues, &mut amounts);
    with_slots(a, dues, amounts)
}

pub(super) fn event(s: State, e: Event) -> Answered {
    let mut dues = s.dues;
    let mut amounts = s.amounts;
    let mut told = [5; NUMBERS];
    let a = executive::event(core_of(s), &mut dues, &mut amounts, &mut told, e);
    with_slots(a, dues, amounts)
}

pub(super) fn sound(s: State) -> bool {
    state_sound::sound(core_of(s), &s.dues, &s.amounts)
}
