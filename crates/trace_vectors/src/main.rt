// Runs the cases of the trace file: files that are made and damaged here. Stored files are run by `replay_vectors`.
// A case is a function of its own: its title and its numbers.
#![tactic(auto)]

use records::{Event, Header, Parameters, SCHED_SPORADIC};
use trace_records::NO_EVENT;
use vector_lines::{labelled, line, text};

const USED: Parameters = Parameters {
    policy: SCHED_SPORADIC,
    priority: 20,
    low: 5,
    max_repl: 2,
    flag: 1,
    budget: 10,
    period: 40,
};

const HAPPENED: Event = Event {
    time: 4,
    kind: 1,
    ..NO_EVENT
};

// The status of a write of n threads and `count` events into the first `room` bytes of a buffer.
fn made(n: u32, count: usize, out: &mut [u8], room: usize) -> u64 {
    let Some(out) = out.get_mut(..room) else {
        return 255;
    };
    let header = Header { n, start: 7 };
    let w = trace_write::write(header, [USED; 32], count, [HAPPENED; 1500], out);
    u64::from(w.status)
}

// The status of a read of a buffer's first `len` bytes.
fn status(file: &[u8], len: usize) -> u64 {
    let Some(file) = file.get(..len) else {
        return 255;
    };
    u64::from(trace_read::read(file).status)
}

fn set(file: &mut [u8], at: usize, b: u8) {
    if let Some(place) = file.get_mut(at) {
        *place = b;
    }
}

// The status with one byte changed, after its place and value; the byte is put back.
fn damaged(file: &mut [u8], len: usize, at: usize, b: u8) {
    if file.len() <= at {
        return;
    }
    let old = file[at];
    file[at] = b;
    labelled(b"byte ", at as u64);
    labelled(b" is ", u64::from(b));
    line(b":", status(file, len));
    file[at] = old;
}

// The same for a value at each of some places, one after another.
fn each_damaged(file: &mut [u8], len: usize, places: &[u8], values: &[u8]) {
    for (at, b) in places.iter().zip(values) {
        damaged(file, len, usize::from(*at), *b);
    }
}

// E = 0, and lengths that are off by one.
fn lengths() {
    let mut file = io::large_buffer();
    line(b"1 thread, 0 events", made(1, 0, &mut file, 65536));
    line(b"as written", status(&file, 56));
    line(b"one byte short", status(&file, 55));
    line(b"one byte over", status(&file, 57));
    line(b"31 bytes", status(&file, 31));
}

// Each field of a header off by one, both ways: format 1, 2 threads, 3 events, table at 32, events at 80, total 200. Then the start
// time, 7, which is not judged.
fn headers() {
    let mut file = io::large_buffer();
    line(b"2 threads, 3 events", made(2, 3, &mut file, 65536));
    let places = [0u8, 0, 4, 4, 8, 8, 12, 12, 16, 16, 20, 20, 24];
    let values = [2u8, 0, 3, 1, 4, 2, 33, 31, 81, 79, 201, 199, 8];
    each_damaged(&mut file, 200, &places, &values);
    line(b"as written", status(&file, 200));
}

// Each filler byte of the first of 3 events, which starts at 80, and of the last, which starts at 160, with the bytes beside them.
fn fillers() {
    let mut file = io::large_buffer();
    line(b"2 threads, 3 events", made(2, 3, &mut file, 65536));
    let places = [
        89u8, 90, 91, 92, 93, 94, 95, 96, 169, 170, 171, 172, 173, 174, 175, 176,
    ];
    let values = [
        1u8, 1, 1, 1, 1, 1, 1, 1, 128, 128, 128, 128, 128, 128, 128, 128,
    ];
    each_damaged(&mut file, 200, &places, &values);
    line(b"as written", status(&file, 200));
}

// N at and past its limits. A header of 0 threads has its events at 32; one of 33 at 824, 0x338.
fn few_threads() {
    let mut file = io::large_buffer();
    line(b"write 0 threads", made(0, 0, &mut file, 65536));
    line(b"write 1 thread", made(1, 0, &mut file, 65536));
    line(b"read 1 thread", status(&file, 56));
    set(&mut file, 4, 0);
    set(&mut file, 16, 32);
    set(&mut file, 20, 32);
    line(b"read 0 threads", status(&file, 32));
}

fn many_threads() {
    let mut file = io::large_buffer();
    line(b"write 33 threads", made(33, 0, &mut file, 65536));
    line(b"write 32 threads", made(32, 0, &mut file, 65536));
    line(b"read 32 threads", status(&file, 800));
    set(&mut file, 4, 33);
    set(&mut file, 16, 56);
    set(&mut file, 20, 56);
    line(b"read 33 threads", status(&file, 824));
}

// E at and past its limit, written and read: 1,500 is 0x5dc, and the total goes from 60,800 to 60,840, 0xeda8.
fn counts() {
    let mut file = io::large_buffer();
    line(b"write 1501 events", made(32, 1501, &mut file, 65536));
    line(b"write 1500 events", made(32, 1500, &mut file, 65536));
    line(b"read 1500 events", status(&file, 60800));
    set(&mut file, 8, 221);
    set(&mut file, 20, 168);
    line(b"read 1501 events", status(&file, 60840));
}

// A buffer one byte short, whose bytes are all kept, and one that is just long enough.
fn rooms() {
    let mut file = io::large_buffer();
    line(b"room for 199 of 200 bytes", made(2, 3, &mut file, 199));
    let cleared = io::large_buffer();
    if check::same(&file, &cleared) {
        text(b"unchanged\n");
    }
    line(b"room for 200", made(2, 3, &mut file, 200));
    line(b"as written", status(&file, 200));
}

// Where several refusals hold, the first of their order is given.
fn order() {
    let mut file = io::large_buffer();
    line(
        b"0 threads, 1501 events, no room",
        made(0, 1501, &mut file, 0),
    );
    line(
        b"2 threads, 1501 events, no room",
        made(2, 1501, &mut file, 0),
    );
    line(b"2 threads, 3 events, no room", made(2, 3, &mut file, 0));
}

fn main() {
    lengths();
    headers();
    fillers();
    few_threads();
    many_threads();
    counts();
    rooms();
    order();
}
