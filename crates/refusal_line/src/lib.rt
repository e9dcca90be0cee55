// The only line of a file that is refused (01 Replay 8), for the texts that are made of a file.
#![tactic(auto)]

ghost use Rattle.std.specs.Prelude.{◌≤◌, length};
ghost use Rattle.text.specs.Placed.{Put};
ghost use Rattle.listing.specs.Lines.{refused_line};
ghost use Rattle.refusal_line.specs.Most.{refusal_most};

// The line from the buffer's start on.
pub fn put_refusal(out: &mut [u8], status: u8) -> usize
    requires { refusal_most ≤ length out.old }
    ensures put { Put out.old 0 (refused_line status) out.new result }
    ensures upper_bound { result ≤ refusal_most }
{
    text_fields::put_labelled(out, 0, b"refused ", u64::from(status))
}
