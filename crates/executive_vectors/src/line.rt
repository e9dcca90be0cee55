// A line of the input, taken in byte by byte.

// How many numbers a line has places for, and where those after `=` start.
pub const NUMBERS: usize = 20;

pub const EXPECTED: usize = 15;

// The first byte of the command; where the line and the command start; the numbers before `=`, from 0 on, and after it,
// from EXPECTED on; the place of the number that is read, or of the next one.
#[derive(Clone, Copy)]
pub struct Line {
    pub op: Option<u8>,
    pub from: usize,
    pub command: usize,
    pub numbers: [u64; NUMBERS],
    pub at: usize,
    // a flag and no Option: the digits read so far stand in `numbers` already
    pub inside: bool,
}

// A line with nothing read of its command.
pub(super) fn start(from: usize, command: usize) -> Line {
    Line {
        op: None,
        from,
        command,
        numbers: [0; NUMBERS],
        at: 0,
        inside: false,
    }
}

// A number with one more decimal digit. It stays as it was where it would be above 2^64 - 1.
fn with_digit(number: u64, digit: u64) -> u64 {
    match number.checked_mul(10) {
        Some(tens) => tens.checked_add(digit).unwrap_or(number),
        None => number,
    }
}

// A byte that is no digit ends a number.
fn with_mark(l: Line, b: u8) -> Line {
    let mut r = l;
    if l.inside && l.at < NUMBERS {
        r.at = l.at + 1;
    }
    r.inside = false;
    if b == b'=' {
        r.at = EXPECTED;
    }
    // a zero byte is no command
    if b != b' ' && b != 0 && l.op.is_none() {
        r.op = Some(b);
    }
    r
}

// The line with one byte more, after which the input goes on at `next`.
pub(super) fn with_byte(l: Line, b: u8, next: usize) -> Line {
    if l.op == Some(b'#') {
        return l;
    }
    if b == b':' {
        return start(l.from, next);
    }
    if b < b'0' || b'9' < b {
        return with_mark(l, b);
    }
    if NUMBERS <= l.at {
        return l;
    }
    let mut r = l;
    r.numbers[l.at] = with_digit(l.numbers[l.at], u64::from(b - b'0'));
    r.inside = true;
    r
}
