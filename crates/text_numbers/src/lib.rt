// Decimal numbers in a line: without leading zeros, one space between two of them and a newline after the last.
#![tactic(auto)]

ghost use Rattle.std.specs.Prelude.{◌≡◌, ◌≤◌, ◌<◌, length, drop};
ghost use Rattle.text_numbers.specs.Numbers.{digit, decimal_at, end_byte, numbers_found};

fn is_digit(b: u8) -> bool
    ensures { result ≡ digit b }
{
    b.is_ascii_digit()
}

// The number that stands at a place of a text, and the place after the byte that ends it: a number of at most `most`, with the byte
// `end` after its last digit. Each digit is judged before it is added, so that no sum passes `most`.
fn decimal_at(text: &[u8], place: usize, most: u64, end: u8) -> Option<(u64, usize)>
    requires { 0 < end }
    ensures { result ≡ decimal_at most end text.now place }
{
    let mut value: u64 = 0;
    for i in place..text.len() {
        let b = text[i];
        if !is_digit(b) {
            if i == place {
                return None;
            }
            if b != end {
                return None;
            }
            return Some((value, i + 1));
        }
        if place < i {
            if value == 0 {
                return None;
            }
        }
        let d = u64::from(b - b'0');
        if most < d {
            return None;
        }
        if (most - d) / 10 < value {
            return None;
        }
        value = value * 10 + d;
    }
    None
}

// The byte after a number: a newline after the last, else a space.
pub fn end_byte(last: bool) -> u8
    ensures { result ≡ end_byte last }
{
    if last { b'\n' } else { b' ' }
}

// The numbers that a text is made of from a place to its end: one for each of `most`, none above its own, and zeros after the last.
pub fn numbers_at(text: &[u8], place: usize, most: &[u64]) -> Option<[u64; 8]>
    requires { length most.now ≤ 8 }
    ensures { result ≡ numbers_found most.now (drop place text.now) }
{
    let mut values = [0u64; 8];
    let mut at = place;
    for i in 0..most.len() {
        let end = end_byte(i + 1 == most.len());
        let (value, next) = decimal_at(text, at, most[i], end)?;
        values[i] = value;
        at = next;
    }
    if at < text.len() {
        return None;
    }
    Some(values)
}
