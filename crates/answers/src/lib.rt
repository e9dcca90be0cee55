// The answer that opening and events give. The state goes as a core by value with its slots lent.
#![tactic(auto)]

ghost use Rattle.std.specs.Prelude.{◌≡◌};
ghost use Rattle.answers.specs.Answer.{parts_of, done_of};

use state::Core;

// Status, the running thread or 255, the next moment or 0, and the state without its slots. Numbers and no `Result` or `Option`s, here and in
// `Reply`: C gets them.
#[repr(C)]
#[derive(Clone, Copy)]
pub struct Answer {
    pub status: u8,
    pub running: u8,
    pub next: u64,
    pub core: Core,
}

// The answer to an event without its state, for a state that is lent: status, the running thread or 255, the next moment or 0.
#[repr(C)]
#[derive(Clone, Copy)]
pub struct Reply {
    pub status: u8,
    pub running: u8,
    pub next: u64,
}

// The state after an event, without its slots, and the reply.
#[repr(C)]
#[derive(Clone, Copy)]
pub struct Done {
    pub core: Core,
    pub reply: Reply,
}

impl From<Answer> for Done {
    ghost from_gives = { λ answer done. done ≡ done_of answer };

    fn from(answer: Answer) -> Done {
        Done {
            core: answer.core,
            reply: Reply {
                status: answer.status,
                running: answer.running,
                next: answer.next,
            },
        }
    }
}

// An answer of these parts: no other function lists its fields.
pub fn answer_of(status: u8, running: u8, next: u64, c: Core) -> Answer
    ensures { result ≡ parts_of status running next c }
{
    Answer {
        status,
        running,
        next,
        core: c,
    }
}

// The answer that names no running thread and no next moment: for 9, and of a refused opening.
pub fn nothing_runs(status: u8, c: Core) -> Answer
    ensures { result ≡ parts_of status 255 0 c }
{
    answer_of(status, 255, 0, c)
}
