//! The lines of a map, written into a line buffer.

ghost use Rattle.std.specs.Prelude.{◌≡◌, ◌+◌, ◌≤◌, ◌++◌, length, replicate};
ghost use Rattle.jmap.specs.MapText.{column, map_line, map_total, tally_columns};

use crate::tally::Tally;
use jline::LineBuffer;

/// The width of a column of bytes.
const WIDTH: usize = 11;

const SPACES: [u8; 20] = [b' '; 20];

/// So many spaces.
fn spaces(count: usize) -> &'static [u8]
    requires { count ≤ 20 }
    ensures { result.now ≡ replicate count 32 }
{
    &SPACES[..count]
}

/// A number with spaces in front, in a column of this width.
fn push_column(line: &mut LineBuffer, width: usize, n: u64)
    requires narrow { width ≤ 20 }
    requires room { length line.old + 20 ≤ 1200 }
    ensures text { line.new ≡ line.old ++ column width n }
    ensures grows { length line.new ≤ length line.old + 20 }
{
    let mut digits = LineBuffer::new();
    digits.push_decimal(n);
    let digits = digits.as_slice();
    line.push_text(spaces(width.saturating_sub(digits.len())));
    line.push_text(digits);
}

/// The numbers of a tally.
fn push_tally(line: &mut LineBuffer, tally: &Tally)
    requires room { length line.old + 100 ≤ 1200 }
    ensures text { line.new ≡ line.old ++ tally_columns tally.now }
    ensures grows { length line.new ≤ length line.old + 100 }
{
    push_column(line, WIDTH, tally.live);
    push_column(line, WIDTH, tally.superseded);
    push_column(line, WIDTH, tally.obsolete);
    push_column(line, WIDTH, tally.damaged);
    push_column(line, WIDTH, tally.free);
}

/// The line of block `k`, which begins at an address.
#[tactic(auto, unfolding(crate::specs::MapText::map_line))]
pub(crate) fn block_line(k: u64, addr: u32, tally: &Tally, bar: &[u8]) -> LineBuffer
    requires { length bar.now ≤ 50 }
    ensures { result ≡ map_line k addr tally.now bar.now }
{
    let mut line = LineBuffer::new();
    push_column(&mut line, 5, k);
    line.push_text(b" ");
    line.push_hex(8, u64::from(addr));
    push_tally(&mut line, tally);
    line.push_text(b" ");
    line.push_text(bar);
    line.push_text(b"\n");
    line
}

/// The last line.
#[tactic(auto, unfolding(crate::specs::MapText::map_total))]
pub(crate) fn total_line(tally: &Tally) -> LineBuffer
    ensures { result ≡ map_total tally.now }
{
    let mut line = LineBuffer::new();
    line.push_text(b"total         ");
    push_tally(&mut line, tally);
    line.push_text(b"\n");
    line
}
