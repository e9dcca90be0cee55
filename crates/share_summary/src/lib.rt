// The largest and the smallest share of the elapsed time, and the thread of each.
//
// Threads are compared by their totals, which are whole numbers: no float is compared.
#![tactic(auto)]

ghost use Rattle.std.specs.Prelude.{◌≡◌, ◌≤◌};
ghost use Rattle.records.specs.Ranges.{most_threads};
ghost use Rattle.state.specs.Updates.{whole};
ghost use Rattle.share_summary.specs.Summaries.{summarized_of};
ghost use Rattle.share_summary.specs.Private.{leaders_of};

use base::Refusal;
use quotient::quotient;
use records::THREADS;
use rows::Slots;
use state::Core;
use thread::Thread;

// The largest and the smallest share, and the thread of each.
#[derive(Clone, Copy)]
pub struct Summary {
    pub largest: f64,
    pub largest_thread: u8,
    pub smallest: f64,
    pub smallest_thread: u8,
}

// The summary; none, where no time has passed; or the number by which it is refused.
// Three cases and no `Result`, as a thread's share has: `summarized_of` speaks of the number.
#[derive(Clone, Copy)]
pub enum Summarized {
    Of(Summary),
    NoTime,
    Refused(u8),
}

// A thread and its total.
#[derive(Clone, Copy)]
struct Leader {
    thread: u8,
    total: u64,
}

// The first thread with the most run time, and the first with the least.
#[derive(Clone, Copy)]
struct Leaders {
    most: Leader,
    least: Leader,
}

// Of the first n threads those with the most and the least run time.
fn leading(threads: &[Thread; THREADS], n: u8) -> Leaders
    requires { n ≤ most_threads }
    ensures { result ≡ leaders_of threads.now n }
{
    let mut most = Leader {
        thread: 0,
        total: threads[0].total,
    };
    let mut least = most;
    for i in 0..n {
        let here = Leader {
            thread: i,
            total: threads[usize::from(i)].total,
        };
        if most.total < here.total {
            most = here;
        }
        if here.total < least.total {
            least = here;
        }
    }
    Leaders { most, least }
}

// The largest and the smallest share of the N threads, for any state.
pub fn summary_of<'a>(c: Core, dues: &'a Slots, amounts: &'a Slots) -> Summarized
    ensures { result ≡ summarized_of (whole c dues.now amounts.now) }
{
    if !state_sound::sound(c, dues, amounts) {
        return Summarized::Refused(u8::from(Refusal::NotSound));
    }
    let elapsed = c.now - c.header.start;
    if elapsed == 0 {
        return Summarized::NoTime;
    }
    let l = leading(&c.threads, c.header.n as u8);
    Summarized::Of(Summary {
        largest: quotient(l.most.total, elapsed),
        largest_thread: l.most.thread,
        smallest: quotient(l.least.total, elapsed),
        smallest_thread: l.least.thread,
    })
}
