// One line of each kind, put at an offset of a buffer; each answers the offset after it.
ghost use Rattle.std.specs.Prelude.{◌+◌, ◌<◌, ◌≤◌, length};
ghost use Rattle.text.specs.Placed.{Put};
ghost use Rattle.records.specs.Ranges.{most_threads};
ghost use Rattle.trace_records.specs.Layout.{most_events};
ghost use Rattle.listing.specs.Lines.{header_line, event_line, thread_line};
ghost use Rattle.listing.specs.Private.{event_line_most, thread_line_most};

use text::put_word;
use text_fields::put_row;

// The line of event i: its status, the running thread, the next moment.
pub(super) fn put_event(
    out: &mut [u8],
    at: usize,
    i: u64,
    status: u8,
    running: u8,
    next: u64,
) -> usize
    requires { (i < most_events) × (at + event_line_most ≤ length out.old) }
    ensures put { Put out.old at (event_line i status running next) out.new result }
    ensures upper_bound { result ≤ at + event_line_most }
{
    put_row(out, at, i, u64::from(status), u64::from(running), next)
}

// The line of thread i: its capacity, its pending count, its total.
pub(super) fn put_thread(
    out: &mut [u8],
    at: usize,
    i: u64,
    capacity: u64,
    count: u8,
    total: u64,
) -> usize
    requires { (i < most_threads) × (at + thread_line_most ≤ length out.old) }
    ensures put { Put out.old at (thread_line i capacity count total) out.new result }
    ensures upper_bound { result ≤ at + thread_line_most }
{
    let here = put_word(out, at, b"thread ");
    put_row(out, here, i, capacity, u64::from(count), total)
}

// The first line: what the columns of the events are.
pub(super) fn put_header(out: &mut [u8], at: usize) -> usize
    requires { at + length (header_line) ≤ length out.old }
    ensures { Put out.old at (header_line) out.new result }
{
    put_word(out, at, b"event status running next\n")
}
