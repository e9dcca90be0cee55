// A line for each case: its name and `right`, or `WRONG` with the numbers that came and those that were expected.
use vector_lines::{end_line, labelled, text};

#[derive(Clone, Copy)]
pub struct Tally {
    pub cases: u32,
    pub wrong: u32,
}

fn numbers(label: &[u8], x: [u64; 4]) {
    labelled(label, x[0]);
    for n in &x[1..] {
        labelled(b" ", *n);
    }
}

fn counted(t: Tally, right: bool) -> Tally {
    Tally {
        cases: t.cases.saturating_add(1),
        wrong: t.wrong.saturating_add(u32::from(!right)),
    }
}

// The name of a case: a part of the input.
pub(super) fn name(file: &[u8], from: usize, to: usize) {
    if let Some(s) = file.get(from..to) {
        text(s);
    }
}

// What follows the name, and the tally with the case.
pub(super) fn compared(t: Tally, got: [u64; 4], want: [u64; 4]) -> Tally {
    let right = got == want;
    if right {
        text(b" right\n");
    } else {
        numbers(b" WRONG, got ", got);
        numbers(b", expected ", want);
        end_line();
    }
    counted(t, right)
}

// The last line.
pub(super) fn finish(t: Tally) {
    labelled(b"", u64::from(t.cases));
    labelled(b" cases, ", u64::from(t.wrong));
    text(b" wrong\n");
}
