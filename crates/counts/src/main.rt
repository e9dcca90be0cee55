// Writes what happened at each event of a trace, event by event, and the sums at the end; and says how it ended: done, refused where the
// trace can't be replayed, or failed where it can't be read or the lines can't be written.
#![tactic(auto)]

ghost use Rattle.std.specs.Prelude.{◌≡◌, true, cond, ◌≤◌, eqb, length, IfOk};
ghost use Rattle.records.specs.Ranges.{most_threads};
ghost use Rattle.trace_records.specs.Layout.{most_events};
ghost use Rattle.state.specs.Sound.{sound_state};
ghost use Rattle.state.specs.Updates.{whole};
ghost use Rattle.replay_steps.specs.FileSteps.{begun_of, end_from};
ghost use Rattle.counts_text.specs.Room.{room};
ghost use Rattle.counts_steps.specs.CountSteps.{sums_from};
ghost use Rattle.command.specs.Ends.{number_of};

use command::{Ending, Told};
use counts_text::ROOM;
use reports::NUMBERS;
use rows::{SLOTS, Slots};
use state::Core;
use trace_records::EVENTS;

// Writes the first bytes of a buffer.
fn write(rt: &impl Print, out: &[u8], n: usize) -> Result<(), Told>
    requires { n ≤ length out.now }
{
    command::write_all(rt, &out[..n])
}

// Writes the line of a refusal.
fn refuse(rt: &impl Print, out: &mut [u8], status: u8) -> Result<Ending, Told>
    requires { room ≤ length out.old }
    ensures { IfOk result (λ ending. number_of ending ≡ 1) }
{
    let n = refusal_line::put_refusal(out, status);
    write(rt, out, n)?;
    Ok(Ending::Refused)
}

// Writes the sums of each of so many threads.
fn write_sums(
    rt: &impl Print,
    out: &mut [u8],
    threads: usize,
    sums: &[u64; NUMBERS],
) -> Result<Ending, Told>
    requires { (threads ≤ most_threads) × (room ≤ length out.old) }
    ensures { IfOk result (λ ending. number_of ending ≡ 0) }
{
    let n = counts_text::put_sums(out, threads, sums);
    write(rt, out, n)?;
    Ok(Ending::Done)
}

// Writes the lines of each event from an offset on, and adds up what they tell; the answer is the state that the last event left, without
// its slots.
fn write_events(
    rt: &impl Print,
    file: &[u8],
    opened: Core,
    dues: &mut Slots,
    amounts: &mut Slots,
    sums: &mut [u64; NUMBERS],
    first: usize,
    out: &mut [u8],
) -> Result<Core, Told>
    requires { (sound_state (whole opened dues.old amounts.old) ≡ true) × (room ≤ length out.old) }
    ensures { IfOk result (λ core. (sound_state (whole core dues.new amounts.new) ≡ true)
        × (sums.new ≡ sums_from (whole opened dues.old amounts.old) file.now first most_events)
        × (whole core dues.new amounts.new ≡ end_from (whole opened dues.old amounts.old) file.now first most_events)) }
{
    *sums = [0u64; NUMBERS];
    let mut s = opened;
    let mut offset = first;
    for i in 0..EVENTS {
        let step = counts_steps::count_at(s, dues, amounts, sums, file, offset, i, out);
        s = step.core;
        if !step.more {
            return Ok(s);
        }
        write(rt, out, step.length)?;
        offset = step.offset;
    }
    Ok(s)
}

// Writes what happened at the events of a file, or the line of its refusal.
fn count(rt: &impl Print, file: &[u8]) -> Result<Ending, Told>
    ensures { IfOk result (λ ending. number_of ending ≡ cond (eqb (begun_of file.now).status 0) 0 1) }
{
    let mut out = [0u8; ROOM];
    let mut dues = [0u64; SLOTS];
    let mut amounts = [0u64; SLOTS];
    let begun = replay_begin::begin(file, &mut dues, &mut amounts);
    if begun.status != 0 {
        return refuse(rt, &mut out, begun.status);
    }
    let mut sums = [0u64; NUMBERS];
    let last = write_events(
        rt,
        file,
        begun.answer.core,
        &mut dues,
        &mut amounts,
        &mut sums,
        begun.offset,
        &mut out,
    )?;
    write_sums(rt, &mut out, last.header.n as usize, &sums)
}

// A trace has at most 60,800 bytes: of a longer file the first 65,536 are refused as the whole of it is.
fn main(rt: HostRuntime) {
    let mut file = io::large_buffer();
    command::run_on_input(&rt, &mut file, |rt, file| count(rt, file));
}
