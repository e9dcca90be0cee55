// A line of a text as a person sees it, on the standard error.
use command::STDERR_FILENO;

// Bytes shown of a line. A line of ours has at most 56, so that what differs is among them.
const SHOWN: usize = 200;

// A byte that can be printed as it is, but for the backslash; any other as `\x` and two digits.
fn show_byte(b: u8) {
    if b < 32 || 126 < b || b == b'\\' {
        io::write_all(STDERR_FILENO, b"\\x");
        io::print_hex(STDERR_FILENO, u64::from(b), 2);
        return;
    }
    io::write_all(STDERR_FILENO, &[b]);
}

// The bytes of a text up to the end of its first line, and whether that ends in a newline.
fn show_line(text: &[u8]) {
    for (i, &b) in text.iter().enumerate() {
        if b == b'\n' {
            io::write_all(STDERR_FILENO, b"\n");
            return;
        }
        if i == SHOWN {
            io::write_all(STDERR_FILENO, b" ..\n");
            return;
        }
        show_byte(b);
    }
    io::write_all(STDERR_FILENO, b" (no newline)\n");
}

// Shows line n of a text, lines counted from 1, with a word before it, or says that there is no such line.
pub(super) fn show(word: &[u8], text: &[u8], n: usize) {
    io::write_all(STDERR_FILENO, word);
    let start = text_lines::lines_end(text, n.saturating_sub(1));
    if start < text.len() {
        show_line(&text[start..]);
        return;
    }
    io::write_all(STDERR_FILENO, b"(no such line)\n");
}
