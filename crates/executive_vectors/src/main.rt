// Runs the cases of the standard input, and compares each with what 01 gives. The head of the file `stdin` says what its lines mean.
#![tactic(auto)]

mod change; // change.rt: a state with one field changed
mod line; // line.rt: a line of the input
mod look; // look.rt: four numbers of a state
mod make; // make.rt: parameters, events and the state of zeros
mod report; // report.rt: a line for each case
mod run; // run.rt: what a line does
mod whole; // whole.rt: the executive on whole states

const STDIN_FILENO: i32 = 0;

// Takes the cases in byte by byte; a newline runs the line that it ends.
fn cases(file: &[u8]) {
    let mut r = run::start();
    let mut l = line::start(0, 0);
    for i in 0..file.len() {
        if file[i] == b'\n' {
            r = run::step(r, l, file);
            l = line::start(i + 1, i + 1);
        } else {
            l = line::with_byte(l, file[i], i + 1);
        }
    }
    report::finish(r.tally);
}

fn main() {
    let mut file = io::large_buffer();
    let n = io::read_full(STDIN_FILENO, &mut file);
    cases(&file[..n]);
}
