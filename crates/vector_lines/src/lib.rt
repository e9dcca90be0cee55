// What the programs that run stored cases write to the standard output. The functions only write, and no clause can say what comes out.
#![tactic(auto)]

const STDOUT_FILENO: i32 = 1;

// A text as it stands.
pub fn text(s: &[u8]) {
    io::write_all(STDOUT_FILENO, s);
}

pub fn end_line() {
    text(b"\n");
}

// A text that is a line of its own.
pub fn title(s: &[u8]) {
    text(s);
    end_line();
}

// A number and a space.
pub fn number(n: u64) {
    decimal(n);
    text(b" ");
}

// The number that ends a line.
pub fn last_number(n: u64) {
    decimal(n);
    end_line();
}

// A label as it stands, and a number.
pub fn labelled(label: &[u8], n: u64) {
    text(label);
    decimal(n);
}

// A line of a label, a space and a number.
pub fn line(label: &[u8], n: u64) {
    text(label);
    text(b" ");
    last_number(n);
}

fn decimal(n: u64) {
    io::print_decimal(STDOUT_FILENO, n);
}
