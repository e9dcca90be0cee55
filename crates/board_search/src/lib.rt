// The search for the next due for programs in other languages: a static library's exported function, beside those of `board`.
//
// A struct is laid out as C lays it out, and an array is a pointer to its first element: `counts` and `dues` are those of a state.
// It has no `requires`: any counts and entries may be handed in, and a number of threads out of range gets its status.
#![tactic(auto)]

ghost use Rattle.std.specs.Prelude.{◌≡◌, ◌<◌};
ghost use Rattle.board_search.specs.Answer.{found_of, refused_search, search_answer};

use base::Refusal;
use due_search::Due;
use records::THREADS;
use rows::SLOTS;

// The status, and the first of the dues with the lowest thread that has it; thread 32 for none, then due 0.
#[repr(C)]
#[derive(Clone, Copy)]
pub struct NextDue {
    pub status: u8,
    pub thread: u8,
    pub due: u64,
}

// A due that was found, or none. No `From`: it asks that the thread's number fits a byte.
fn found(x: Due) -> NextDue
    requires { x.thread < 256 }
    ensures { result ≡ found_of x }
{
    NextDue {
        status: 0,
        thread: x.thread as u8,
        due: x.due,
    }
}

// The answer to a number of threads out of range.
fn refused() -> NextDue
    ensures { result ≡ refused_search }
{
    NextDue {
        status: u8::from(Refusal::WrongThread),
        thread: THREADS as u8,
        due: 0,
    }
}

// Of the first n threads that have a replenishment pending: the least first due and the lowest thread that has it.
#[unsafe(no_mangle)]
pub extern "C" fn thawonlai_next_due<'a>(
    counts: &'a [u8; THREADS],
    dues: &'a [u64; SLOTS],
    n: u32,
) -> NextDue
    ensures { result ≡ search_answer counts.now dues.now n }
{
    if n < 1 {
        return refused();
    }
    if (THREADS as u32) < n {
        return refused();
    }
    found(next_due::next_due(counts, dues, n as usize))
}
