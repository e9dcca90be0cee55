// Shares of the elapsed time for programs in other languages: a static library's exported functions, beside those of `board`.
//
// A struct is laid out as C lays it out, a lent `Core` is a pointer to one, and a lent array is a pointer to its first number. C has no
// enum that holds values, so each answer goes as its numbers. None has a `requires`: any state and any thread number may be handed in.
#![tactic(auto)]

ghost use Rattle.std.specs.Prelude.{◌≡◌};
ghost use Rattle.state.specs.Updates.{whole};
ghost use Rattle.shares.specs.Shares.{share_of};
ghost use Rattle.share_summary.specs.Summaries.{summarized_of};
ghost use Rattle.board_shares.specs.Replies.{share_reply, no_summary, summary_reply};

use rows::Slots;
use share_summary::Summarized;
use shares::Share;
use state::Core;

// The answer in numbers: 0 a share, 1 no time, 2 a refusal; then the refusal's number and the share. What doesn't apply is 0.
#[repr(C)]
#[derive(Clone, Copy)]
pub struct ShareReply {
    pub form: u8,
    pub status: u8,
    pub share: f64,
}

// The same of the summary.
#[repr(C)]
#[derive(Clone, Copy)]
pub struct SummaryReply {
    pub form: u8,
    pub status: u8,
    pub largest_thread: u8,
    pub smallest_thread: u8,
    pub largest: f64,
    pub smallest: f64,
}

// The share of a thread in numbers, for a core by value. No `From`: the pages name this function.
fn share_numbers<'a>(c: Core, dues: &'a Slots, amounts: &'a Slots, thread: u8) -> ShareReply
    ensures { result ≡ share_reply (share_of (whole c dues.now amounts.now) thread) }
{
    match shares::share_of(c, dues, amounts, thread) {
        Share::Of(share) => ShareReply {
            form: 0,
            status: 0,
            share,
        },
        Share::NoTime => ShareReply {
            form: 1,
            status: 0,
            share: 0.0,
        },
        Share::Refused(status) => ShareReply {
            form: 2,
            status,
            share: 0.0,
        },
    }
}

// The share of a thread of a lent state.
#[unsafe(no_mangle)]
pub extern "C" fn thawonlai_share<'c, 'a>(
    core: &'c Core,
    dues: &'a Slots,
    amounts: &'a Slots,
    thread: u8,
) -> ShareReply
    ensures { result ≡ share_reply (share_of (whole core.entry.now dues.now amounts.now) thread) }
{
    share_numbers(*core, dues, amounts, thread)
}

// A reply that holds no summary.
fn no_summary(form: u8, status: u8) -> SummaryReply
    ensures { result ≡ no_summary form status }
{
    SummaryReply {
        form,
        status,
        largest_thread: 0,
        smallest_thread: 0,
        largest: 0.0,
        smallest: 0.0,
    }
}

// The summary in numbers, for a core by value. No `From`: the pages name this function.
fn summary_numbers<'a>(c: Core, dues: &'a Slots, amounts: &'a Slots) -> SummaryReply
    ensures { result ≡ summary_reply (summarized_of (whole c dues.now amounts.now)) }
{
    match share_summary::summary_of(c, dues, amounts) {
        Summarized::Of(s) => SummaryReply {
            form: 0,
            status: 0,
            largest_thread: s.largest_thread,
            smallest_thread: s.smallest_thread,
            largest: s.largest,
            smallest: s.smallest,
        },
        Summarized::NoTime => no_summary(1, 0),
        Summarized::Refused(status) => no_summary(2, status),
    }
}

// The largest and the smallest share of a lent state, and the thread of each.
#[unsafe(no_mangle)]
pub extern "C" fn thawonlai_share_summary<'c, 'a>(
    core: &'c Core,
    dues: &'a Slots,
    amounts: &'a Slots,
) -> SummaryReply
    ensures { result ≡ summary_reply (summarized_of (whole core.entry.now dues.now amounts.now)) }
{
    summary_numbers(*core, dues, amounts)
}
