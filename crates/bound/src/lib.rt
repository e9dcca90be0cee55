// The most ticks that a sporadic thread can take at its upper priority, by its parameters, for a person who plans what is left beside it.
#![tactic(auto)]

ghost use Rattle.std.specs.Prelude.{◌≡◌, true};
ghost use Rattle.ledger.specs.Bound.{most_upper};
ghost use Rattle.bound.specs.Most.{sporadic_thread, most_of};

use account::ENTRIES;
use base::Refusal;
use records::{Parameters, SCHED_SPORADIC};

// The status, and the most ticks; 0 where the status is not 0. A number and no `Result`: C gets it.
#[repr(C)]
#[derive(Clone, Copy)]
pub struct Most {
    pub status: u8,
    pub ticks: u64,
}

// Whether these are the parameters of a sporadic thread that may be opened.
fn sporadic_thread(p: Parameters) -> bool
    ensures { result ≡ sporadic_thread p }
{
    p.policy == SCHED_SPORADIC && p.flag <= 1 && records::in_range(p, ENTRIES as u8)
}

// Two budgets for each stretch that is begun, and never more than the length. Those of the whole stretches are no more than the length, and
// the last two are added where they stay below it, so that no sum wraps.
fn most_upper(p: Parameters, length: u64) -> u64
    requires { sporadic_thread p ≡ true }
    ensures { result ≡ most_upper p length }
{
    let stretch = p.period + p.budget;
    let twice = 2 * p.budget;
    let whole = length / stretch * twice;
    if length % stretch == 0 {
        return whole;
    }
    if twice < length - whole {
        return whole + twice;
    }
    length
}

// The most ticks at the upper priority in so many ticks. Any values may be handed in.
pub fn most_of(p: Parameters, length: u64) -> Most
    ensures { result ≡ most_of p length }
{
    if sporadic_thread(p) {
        return Most {
            status: 0,
            ticks: most_upper(p, length),
        };
    }
    Most {
        status: u8::from(Refusal::WrongParameters),
        ticks: 0,
    }
}
