// Lines: where one ends, what it starts with, and the first in which two texts differ.
ghost use Rattle.std.specs.Prelude.{◌≡◌, ◌+◌, ◌≤◌, length, drop};
ghost use Rattle.text_lines.specs.Lines.{first_difference, line_length, starts_with, lines_length};

// Whether a text starts with a word, byte for byte.
pub fn starts_with(text: &[u8], word: &[u8]) -> bool
    ensures { result ≡ starts_with word.now text.now }
{
    text.starts_with(word)
}

// The place after the line that starts at a place, its newline included.
pub fn line_end(text: &[u8], place: usize) -> usize
    requires { place ≤ length text.now }
    ensures { result ≡ place + line_length (drop place text.now) }
{
    match text[place..].iter().position(|&b| b == b'\n') {
        Some(passed) => place + passed + 1,
        None => text.len(),
    }
}

// The place after so many lines of a text; the text's end where it has no more.
pub fn lines_end(text: &[u8], lines: usize) -> usize
    ensures value { result ≡ lines_length lines text.now }
    ensures within { result ≤ length text.now }
{
    let mut place = 0;
    for _line in 0..lines {
        place = line_end(text, place);
    }
    place
}

// The number, from 1, of the first line that differs, is missing or is surplus; 0 where the texts agree byte for byte. Lines that
// are passed are counted, so that the count stays below the texts' length.
pub fn first_difference(a: &[u8], b: &[u8]) -> usize
    ensures { result ≡ first_difference a.now b.now }
{
    let mut passed = 0;
    for (x, y) in a.iter().zip(b) {
        if x != y {
            return passed + 1;
        }
        if *x == b'\n' {
            passed += 1;
        }
    }
    if a.len() == b.len() { 0 } else { passed + 1 }
}
