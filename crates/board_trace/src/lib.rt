// The trace file for programs in other languages: a static library's exported functions, beside those of `board`.
//
// A struct is laid out as C lays it out, and a slice is a pointer and then a length.
// None has a `requires`: any values may be handed in, and bad ones get their status.
#![tactic(auto)]

ghost use Rattle.std.specs.Prelude.{◌≡◌, length};
ghost use Rattle.trace.specs.Write.{written_of, out_of, copied_of, copy_of};
ghost use Rattle.board_trace.specs.Found.{found_in};

use records::{Event, Header, Parameters, THREADS};
use trace::Written;
use trace_records::EVENTS;

// What a read finds: the status, the number of threads, the start time and the number of events.
// a number and no Result: C gets it
#[repr(C)]
#[derive(Clone, Copy)]
pub struct Found {
    pub status: u8,
    pub n: u32,
    pub start: u64,
    pub count: usize,
}

// A thread table and the events of a file: an array on its own is not passed by value in C.
#[repr(C)]
#[derive(Clone, Copy)]
pub struct Table {
    pub threads: [Parameters; THREADS],
}

#[repr(C)]
#[derive(Clone, Copy)]
pub struct Events {
    pub events: [Event; EVENTS],
}

// Writes a file of the first n threads of the table and the first `count` events into a buffer. A refused write changes no byte.
#[unsafe(no_mangle)]
pub extern "C" fn thawonlai_write(
    header: Header,
    table: Table,
    events: Events,
    count: usize,
    out: &mut [u8],
) -> Written
    ensures value { result ≡ written_of header count (length out.old) }
    ensures out_after { out.new ≡ out_of header table.threads count events.events out.old }
{
    trace_write::write(header, table.threads, count, events.events, out)
}

// Reads a trace file: its header and the number of its events.
#[unsafe(no_mangle)]
pub extern "C" fn thawonlai_read(file: &[u8]) -> Found
    ensures { result ≡ found_in file.now }
{
    let c = trace_read::read(file);
    Found {
        status: c.status,
        n: c.header.n,
        start: c.header.start,
        count: c.count,
    }
}

// Reads a trace file and writes what was read into a buffer: the same bytes.
#[unsafe(no_mangle)]
pub extern "C" fn thawonlai_copy(file: &[u8], out: &mut [u8]) -> Written
    ensures value { result ≡ copied_of file.now (length out.old) }
    ensures out_after { out.new ≡ copy_of file.now out.old }
{
    trace_copy::copy(file, out)
}
