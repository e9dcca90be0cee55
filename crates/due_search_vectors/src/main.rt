// Runs stored cases of the search for the next due, over counts and entries that no sound state has too, and prints N, the thread and
// the due that is found. The expected output is the file stdout, written from 02 E2 alone.
// A case is a function of its own: its title and its numbers.
#![tactic(auto)]

use account::ENTRIES;
use records::THREADS;
use rows::SLOTS;
use vector_lines::{last_number, number, title};

#[derive(Clone, Copy)]
struct Case {
    counts: [u8; THREADS],
    dues: [u64; SLOTS],
}

fn nothing() -> Case {
    Case {
        counts: [0u8; THREADS],
        dues: [0u64; SLOTS],
    }
}

// Thread i has `count` entries, the first two due at `first` and `second`.
fn given(c: Case, i: usize, count: u8, first: u64, second: u64) -> Case {
    if THREADS <= i {
        return c;
    }
    let mut d = c;
    d.counts[i] = count;
    d.dues[i * ENTRIES] = first;
    d.dues[i * ENTRIES + 1] = second;
    d
}

// What is found among the first n threads.
fn show(c: Case, n: usize) {
    if THREADS < n {
        return;
    }
    let x = next_due::next_due(&c.counts, &c.dues, n);
    number(n as u64);
    number(x.thread as u64);
    last_number(x.due);
}

fn none() {
    title(b"nothing pending, whatever the entries hold");
    show(nothing(), 1);
    show(nothing(), 32);
    show(given(given(nothing(), 0, 0, 1, 2), 31, 0, 3, 0), 32);
}

fn one() {
    title(b"one thread of 32, and the threads before it");
    let c = given(nothing(), 5, 1, 70, 0);
    show(c, 32);
    show(c, 6);
    show(c, 5);
}

fn two() {
    title(b"the first and the last thread");
    let c = given(given(nothing(), 0, 1, 9, 0), 31, 1, 4, 0);
    show(c, 1);
    show(c, 31);
    show(c, 32);
}

fn zero() {
    title(b"a due of 0 is a due");
    let c = given(given(nothing(), 1, 1, 5, 0), 3, 2, 0, 6);
    show(c, 32);
    show(c, 3);
    show(given(c, 2, 1, 0, 0), 32);
}

fn largest() {
    title(b"the largest due");
    let c = given(nothing(), 10, 1, 18446744073709551615, 0);
    show(c, 32);
    show(given(c, 11, 1, 18446744073709551615, 0), 32);
}

fn equal() {
    title(b"at equal dues the lowest thread");
    let c = given(given(nothing(), 20, 1, 12, 0), 9, 1, 12, 0);
    show(c, 32);
    show(given(c, 3, 3, 12, 13), 32);
    show(given(c, 3, 3, 13, 14), 32);
}

fn many() {
    title(b"counts above the slots");
    let c = given(given(nothing(), 4, 9, 50, 0), 6, 8, 30, 31);
    show(c, 32);
    show(given(c, 7, 255, 20, 21), 32);
    show(given(c, 7, 255, 20, 21), 7);
}

fn unsorted() {
    title(b"unsorted entries: only the first counts");
    let c = given(given(nothing(), 2, 2, 40, 10), 8, 2, 30, 99);
    show(c, 32);
    show(c, 8);
    title(b"what threads without entries hold");
    show(given(given(c, 0, 0, 1, 1), 9, 0, 2, 2), 32);
}

// Every thread has one entry: thread i's is due at 100 + i, or at 100 - i.
fn all(falling: bool) -> Case {
    let mut c = nothing();
    for i in 0..THREADS {
        let due = if falling { 100 - i } else { 100 + i };
        c = given(c, i, 1, due as u64, 0);
    }
    c
}

fn main() {
    none();
    one();
    two();
    zero();
    largest();
    equal();
    many();
    unsorted();
    title(b"every thread");
    show(all(false), 32);
    show(all(true), 32);
    show(all(true), 16);
}
