// Text traces for programs in other languages: a static library's exported functions, beside those of `board` and `board_trace`.
//
// A struct is laid out as C lays it out, and a slice is a pointer and then a length.
// Neither has a `requires`: any bytes and any buffer may be handed in, and bad ones get their status.
#![tactic(auto)]

ghost use Rattle.std.specs.Prelude.{◌≡◌, length};
ghost use Rattle.trace_making.specs.FromText.{from_text, from_text_out};
ghost use Rattle.trace_telling.specs.ToText.{to_text, to_text_out};

use trace_making::Made;

// Writes the trace file of a text into a buffer. A refusal changes no byte.
#[unsafe(no_mangle)]
pub extern "C" fn thawonlai_from_text(text: &[u8], out: &mut [u8]) -> Made
    ensures value { result ≡ from_text text.now (length out.old) }
    ensures out_after { out.new ≡ from_text_out text.now out.old }
{
    trace_making::from_text(text, out)
}

// Writes the text of a trace file into a buffer. A refusal changes no byte.
#[unsafe(no_mangle)]
pub extern "C" fn thawonlai_to_text(file: &[u8], out: &mut [u8]) -> Made
    ensures value { result ≡ to_text file.now (length out.old) }
    ensures out_after { out.new ≡ to_text_out file.now out.old }
{
    trace_telling::to_text(file, out)
}
