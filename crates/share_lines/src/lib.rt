// The lines of a state's shares in a lent buffer: one of each kind, and all of them.
#![tactic(auto)]

ghost use Rattle.std.specs.Prelude.{[], ◌∷◌, ◌++◌, ◌≡◌, true, ◌+◌, ◌≤◌, length};
ghost use Rattle.text.specs.Placed.{Put};
ghost use Rattle.text.specs.Fields.{newline};
ghost use Rattle.state.specs.Sound.{sound_state};
ghost use Rattle.decimals.specs.Decimals.{Shown};
ghost use Rattle.state.specs.Updates.{whole};
ghost use Rattle.share_lines.specs.Lines.{
  smallest_word,
  share_text,
  share_line,
  share_lines,
  leader_line,
  summary_lines,
  shares_in,
};
ghost use Rattle.share_lines.specs.Bounds.{
  end_most,
  share_line_most,
  share_lines_most,
  leader_line_most,
  summary_most,
  ShownShare,
  ShownSummary,
};

use rows::Slots;
use share_summary::{Summarized, Summary};
use shares::Share;
use state::Core;
use text::{put_byte, put_word};
use text_fields::put_field;

// The end of a line: a share that there is, and the newline.
fn put_digits(out: &mut [u8], mut at: usize, x: f64) -> usize
    requires { Shown x × (at + end_most ≤ length out.old) }
    ensures put { Put out.old at (share_text (Share.Of x) ++ (newline ∷ [])) out.new result }
    ensures upper_bound { result ≤ at + end_most }
{
    at = decimals::put_float(out, at, x);
    put_byte(out, at, b'\n')
}

// The end of a line: a share, or that there is none, and the newline.
fn put_end(out: &mut [u8], at: usize, x: Share) -> usize
    requires { ShownShare x × (at + end_most ≤ length out.old) }
    ensures put { Put out.old at (share_text x ++ (newline ∷ [])) out.new result }
    ensures upper_bound { result ≤ at + end_most }
{
    let Share::Of(share) = x else {
        return put_word(out, at, b"none\n");
    };
    put_digits(out, at, share)
}

// The line of thread i: its number, its total, the elapsed time and its share.
fn put_line(out: &mut [u8], mut at: usize, i: u64, total: u64, elapsed: u64, x: Share) -> usize
    requires { ShownShare x × (at + share_line_most ≤ length out.old) }
    ensures put { Put out.old at (share_line i total elapsed x) out.new result }
    ensures upper_bound { result ≤ at + share_line_most }
{
    at = put_word(out, at, b"share ");
    at = put_field(out, at, i, b' ');
    at = put_field(out, at, total, b' ');
    at = put_field(out, at, elapsed, b' ');
    put_end(out, at, x)
}

// A line of the summary.
fn put_leader(out: &mut [u8], mut at: usize, word: &[u8], thread: u8, x: f64) -> usize
    requires { Shown x × (length word.now ≤ length (smallest_word)) × (at + leader_line_most ≤ length out.old) }
    ensures put { Put out.old at (leader_line word.now thread (Share.Of x)) out.new result }
    ensures upper_bound { result ≤ at + leader_line_most }
{
    at = put_word(out, at, word);
    at = put_field(out, at, u64::from(thread), b' ');
    put_digits(out, at, x)
}

// The two lines of a summary, or none.
fn put_summary(out: &mut [u8], mut at: usize, x: Summarized) -> usize
    requires { ShownSummary x × (at + summary_most ≤ length out.old) }
    ensures put { Put out.old at (summary_lines x) out.new result }
    ensures upper_bound { result ≤ at + summary_most }
{
    let Summarized::Of(s) = x else {
        return at;
    };
    at = put_leader(out, at, b"largest ", s.largest_thread, s.largest);
    put_leader(out, at, b"smallest ", s.smallest_thread, s.smallest)
}

// A line for each thread.
fn put_threads<'o, 'a>(
    out: &'o mut [u8],
    mut at: usize,
    c: Core,
    dues: &'a Slots,
    amounts: &'a Slots,
) -> usize
    requires { (sound_state (whole c dues.now amounts.now) ≡ true) × (at + share_lines_most ≤ length out.old) }
    ensures put { Put out.old at (share_lines (whole c dues.now amounts.now) c.header.n) out.new result }
    ensures upper_bound { result ≤ at + share_lines_most }
{
    let n = c.header.n as u8;
    let elapsed = c.now - c.header.start;
    for i in 0..n {
        let x = shares::share_of(c, dues, amounts, i);
        at = put_line(
            out,
            at,
            u64::from(i),
            c.threads[usize::from(i)].total,
            elapsed,
            x,
        );
    }
    at
}

// All lines of a state.
pub fn put_shares<'o, 'a>(
    out: &'o mut [u8],
    mut at: usize,
    c: Core,
    dues: &'a Slots,
    amounts: &'a Slots,
) -> usize
    requires { (sound_state (whole c dues.now amounts.now) ≡ true) × (at + share_lines_most + summary_most ≤ length out.old) }
    ensures put { Put out.old at (shares_in (whole c dues.now amounts.now)) out.new result }
    ensures upper_bound { result ≤ at + share_lines_most + summary_most }
{
    at = put_threads(out, at, c, dues, amounts);
    let x = share_summary::summary_of(c, dues, amounts);
    put_summary(out, at, x)
}
