// The lines of a file.
ghost use Rattle.std.specs.Prelude.{◌≡◌, true, List, ◌++◌, ℕ, ◌+◌, ◌≤◌, length};
ghost use Rattle.trace_records.specs.Layout.{most_events};
ghost use Rattle.records.specs.Ranges.{most_threads};
ghost use Rattle.state.specs.Sound.{sound_state};
ghost use Rattle.state.specs.Updates.{whole};
ghost use Rattle.text.specs.Placed.{Put};
ghost use Rattle.replay_steps.specs.FileSteps.{answers_from, end_from};
ghost use Rattle.listing.specs.Lines.{event_lines, thread_lines, idle_line};
ghost use Rattle.listing.specs.Listing.{listing_of, largest};
ghost use Rattle.listing.specs.Private.{event_lines_most, closing_most};

use super::lines;
use reports::NUMBERS;
use rows::{SLOTS, Slots};
use state::Core;
use trace_records::EVENTS;

// Where the lines of the events end, and the state that the last event left, without its slots. No pair: clauses name the parts.
#[derive(Clone, Copy)]
struct Ended {
    at: usize,
    core: Core,
}

// A line for each event from an offset on.
fn put_events(
    out: &mut [u8],
    at: usize,
    mut s: Core,
    dues: &mut Slots,
    amounts: &mut Slots,
    file: &[u8],
    mut offset: usize,
) -> Ended
    requires { (sound_state (whole s dues.old amounts.old) ≡ true) × (at + event_lines_most ≤ length out.old) }
    ensures put { Put out.old at (event_lines 0 (answers_from (whole s dues.old amounts.old) file.now offset most_events)) out.new result.at }
    ensures amounts_after { (whole result.core dues.new amounts.new ≡ end_from (whole s dues.old amounts.old) file.now offset most_events)
        × (sound_state (whole result.core dues.new amounts.new) ≡ true) × (result.at ≤ at + event_lines_most) }
{
    let mut here = at;
    for i in 0..EVENTS {
        let mut told = [0u64; NUMBERS];
        let step = replay_steps::step_at(s, dues, amounts, &mut told, file, offset);
        s = step.answer.core;
        if !step.more {
            break;
        }
        here = lines::put_event(
            out,
            here,
            i as u64,
            step.answer.status,
            step.answer.running,
            step.answer.next,
        );
        offset = step.offset;
    }
    Ended { at: here, core: s }
}

// A line for each thread, and the idle line, whatever the slots hold.
fn put_threads(out: &mut [u8], at: usize, c: Core) -> usize
    requires { (c.header.n ≤ most_threads) × (at + closing_most ≤ length out.old) }
    ensures by_index { (dues amounts : List ℕ) → Put out.old at (thread_lines (whole c dues amounts) c.header.n ++ idle_line c.idle) out.new result }
    ensures upper_bound { result ≤ at + closing_most }
{
    let n = c.header.n as usize;
    let mut here = at;
    for i in 0..n {
        let t = c.threads[i];
        here = lines::put_thread(out, here, i as u64, t.server.capacity, c.counts[i], t.total);
    }
    text_fields::put_labelled(out, here, b"idle ", c.idle)
}

// The whole listing from the buffer's start on.
pub(super) fn put_listing(out: &mut [u8], file: &[u8]) -> usize
    requires { largest ≤ length out.old }
    ensures put { Put out.old 0 (listing_of file.now) out.new result }
    ensures upper_bound { result ≤ largest }
{
    let mut dues = [0u64; SLOTS];
    let mut amounts = [0u64; SLOTS];
    let begun = replay_begin::begin(file, &mut dues, &mut amounts);
    if begun.status != 0 {
        return text_fields::put_labelled(out, 0, b"refused ", u64::from(begun.status));
    }
    let here = lines::put_header(out, 0);
    let ended = put_events(
        out,
        here,
        begun.answer.core,
        &mut dues,
        &mut amounts,
        file,
        begun.offset,
    );
    put_threads(out, ended.at, ended.core)
}
