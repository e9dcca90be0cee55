// Parameters, events and the state of zeros.
ghost use Rattle.std.specs.Prelude.{◌≤◌};

use super::change;
use super::line::NUMBERS;
use ready::LIST_BYTES;
use records::{Event, Parameters, THREADS};
use rows::SLOTS;
use sporadic::Server;
use state::State;
use thread::Thread;
use trace_records::{NO_HEADER, NO_PARAMETERS};

// The seven parameters that stand from place k on.
pub(super) fn parameters(x: [u64; NUMBERS], k: usize) -> Parameters
    requires { k ≤ 13 }
{
    Parameters {
        policy: change::byte(x[k]),
        priority: change::byte(x[k + 1]),
        low: change::byte(x[k + 2]),
        max_repl: change::byte(x[k + 3]),
        flag: change::word(x[k + 4]),
        budget: x[k + 5],
        period: x[k + 6],
    }
}

// The kind of an event by its command; the command `kind` gives it as a number.
fn kind_of(op: u8, number: u64) -> u8 {
    match op {
        b'c' => 0,
        b'b' => 1,
        b'y' => 2,
        b'w' => 3,
        b's' => 4,
        _ => change::byte(number),
    }
}

// An event: the time, the thread, the parameters.
pub(super) fn event(op: u8, x: [u64; NUMBERS]) -> Event {
    Event {
        time: x[0],
        kind: kind_of(op, x[9]),
        thread: change::byte(x[1]),
        parameters: parameters(x, 2),
    }
}

// No threads and zeros.
pub(super) fn zeros() -> State {
    let nobody = Thread {
        parameters: NO_PARAMETERS,
        blocked: 0,
        total: 0,
        left: 0,
        server: Server {
            capacity: 0,
            used: 0,
            activation: 0,
        },
    };
    State {
        header: NO_HEADER,
        now: 0,
        idle: 0,
        word: 0,
        threads: [nobody; THREADS],
        counts: [0; THREADS],
        dues: [0; SLOTS],
        amounts: [0; SLOTS],
        lists: [0; LIST_BYTES],
    }
}
