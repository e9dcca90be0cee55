// Numbers as the fields of a line, put into a lent buffer as `text` puts bytes.
#![tactic(auto)]

ghost use Rattle.std.specs.Prelude.{◌+◌, ◌≤◌, length};
ghost use Rattle.text.specs.Fields.{field, labelled, row};
ghost use Rattle.text.specs.Placed.{Put};

use text::{put_byte, put_number, put_word};

// A number and the byte after it.
pub fn put_field(out: &mut [u8], at: usize, n: u64, end: u8) -> usize
    requires { at + length (field n end) ≤ length out.old }
    ensures { Put out.old at (field n end) out.new result }
{
    let here = put_number(out, at, n);
    put_byte(out, here, end)
}

// A line of a word and a number.
pub fn put_labelled(out: &mut [u8], at: usize, word: &[u8], n: u64) -> usize
    requires { at + length (labelled word.now n) ≤ length out.old }
    ensures { Put out.old at (labelled word.now n) out.new result }
{
    let here = put_word(out, at, word);
    put_field(out, here, n, b'\n')
}

// A line of four numbers.
pub fn put_row(out: &mut [u8], at: usize, a: u64, b: u64, c: u64, d: u64) -> usize
    requires { at + length (row a b c d) ≤ length out.old }
    ensures { Put out.old at (row a b c d) out.new result }
{
    let second = put_field(out, at, a, b' ');
    let third = put_field(out, second, b, b' ');
    let fourth = put_field(out, third, c, b' ');
    put_field(out, fourth, d, b'\n')
}
