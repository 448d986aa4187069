//! The lines of `damage`.

ghost use Rattle.std.specs.Prelude.{◌≡◌, ◌++◌, ◌≤◌, codes, length, map, option_map};
ghost use Rattle.flashbase.specs.Sinks.{PutsTo};
ghost use Rattle.jline.specs.Paths.{path_shown};
ghost use Rattle.jline.specs.Words.{escaped};
ghost use Rattle.jdamage.specs.Lines.{gap_start, loss_line, loss_start, missing_end, missing_line, missing_start, more_end, more_gap_line, more_line, path_line, no_path_line, nothing_line, stretch_start, totals_shown, unknown_line};

use crate::fields::Loss;
use crate::totals::Totals;
use flashbase::{DeviceFault, Sink};
use jgaps::{Gap, Stretch};
use jline::{LineBuffer, damage_name, put_escaped, put_path, put_text};
use jnode::Damage;

/// Puts a path between two texts.
fn put_path_between<T: Sink>(
    start: &[u8],
    path: &[&[u8]],
    end: &[u8],
    sink: &mut T,
) -> Result<(), DeviceFault>
    ensures { PutsTo T.Sink sink.old sink.new
        (start.now ++ (path_shown (map (λ name. name.now) path.now) ++ end.now)) result }
{
    put_text(sink, start)?;
    put_path(sink, path)?;
    put_text(sink, end)
}

/// Puts a name between two texts, with its escapes.
fn put_name_between<T: Sink>(
    start: &[u8],
    name: &[u8],
    end: &[u8],
    sink: &mut T,
) -> Result<(), DeviceFault>
    ensures { PutsTo T.Sink sink.old sink.new (start.now ++ (escaped name.now ++ end.now)) result }
{
    put_text(sink, start)?;
    put_escaped(sink, name)?;
    put_text(sink, end)
}

/// Puts two texts.
fn put_two<T: Sink>(start: &[u8], end: &[u8], sink: &mut T) -> Result<(), DeviceFault>
    ensures { PutsTo T.Sink sink.old sink.new (start.now ++ end.now) result }
{
    put_text(sink, start)?;
    put_text(sink, end)
}

/// What each line of a node of damaged data begins with, and this text.
#[tactic(auto, unfolding(crate::specs::Lines::stretch_start), using(std::proofs::Common::append_assoc))]
fn stretch_until(addr: u32, lost: &Stretch, end: &[u8]) -> LineBuffer
    requires { length end.now ≤ 32 }
    ensures { result ≡ stretch_start addr lost.now ++ end.now }
{
    let mut line = LineBuffer::new();
    line.push_hex(8, u64::from(addr));
    line.push_text(b" data-crc ino ");
    line.push_decimal(u64::from(lost.ino));
    line.push_text(b" version ");
    line.push_decimal(u64::from(lost.version));
    line.push_text(b" bytes ");
    line.push_decimal(u64::from(lost.from));
    line.push_text(b" to ");
    line.push_decimal(lost.to);
    line.push_text(end);
    line
}

/// The line of a node that hides nothing.
pub(crate) fn put_nothing<T: Sink>(
    addr: u32,
    lost: &Stretch,
    sink: &mut T,
) -> Result<(), DeviceFault>
    ensures { PutsTo T.Sink sink.old sink.new (nothing_line addr lost.now) result }
{
    put_text(
        sink,
        stretch_until(addr, lost, b" hides nothing\n").as_slice(),
    )
}

/// The line of a node of an object that no path leads to.
pub(crate) fn put_no_path<T: Sink>(
    addr: u32,
    lost: &Stretch,
    sink: &mut T,
) -> Result<(), DeviceFault>
    ensures { PutsTo T.Sink sink.old sink.new (no_path_line addr lost.now) result }
{
    put_text(
        sink,
        stretch_until(addr, lost, b" has no path\n").as_slice(),
    )
}

/// What the line of a node that hides a path begins with.
pub(crate) fn hides_start(addr: u32, lost: &Stretch) -> LineBuffer
    ensures { result ≡ stretch_start addr lost.now ++ codes " hides " }
{
    stretch_until(addr, lost, b" hides ")
}

/// A path behind a text, as a line.
pub(crate) fn put_path_line<T: Sink>(
    start: &[u8],
    path: &[&[u8]],
    sink: &mut T,
) -> Result<(), DeviceFault>
    ensures { PutsTo T.Sink sink.old sink.new
        (path_line start.now (map (λ name. name.now) path.now)) result }
{
    put_path_between(start, path, b"\n", sink)
}

/// The end of a line that tells how many more paths there are.
#[tactic(auto, unfolding(crate::specs::Lines::more_end), using(std::proofs::Common::append_assoc))]
fn more_end(count: u64) -> LineBuffer
    ensures { result ≡ more_end count }
{
    let mut line = LineBuffer::new();
    line.push_decimal(count);
    line.push_text(b" more paths\n");
    line
}

/// The line of a node that hides so many more paths than have a line.
#[tactic(auto, using(std::proofs::Common::append_assoc))]
pub(crate) fn put_more<T: Sink>(
    addr: u32,
    lost: &Stretch,
    count: u64,
    sink: &mut T,
) -> Result<(), DeviceFault>
    ensures { PutsTo T.Sink sink.old sink.new (more_line addr lost.now count) result }
{
    let start = stretch_until(addr, lost, b" and ");
    put_two(start.as_slice(), more_end(count).as_slice(), sink)
}

/// What the line of a node of a damaged name begins with, and this text.
#[tactic(auto, unfolding(crate::specs::Lines::loss_start), using(std::proofs::Common::append_assoc))]
fn loss_until(addr: u32, loss: &Loss, end: &[u8]) -> LineBuffer
    requires { length end.now ≤ 32 }
    ensures { result ≡ loss_start addr loss.now ++ end.now }
{
    let mut line = LineBuffer::new();
    line.push_hex(8, u64::from(addr));
    line.push_text(b" name-crc pino ");
    line.push_decimal(u64::from(loss.pino));
    line.push_text(b" version ");
    line.push_decimal(u64::from(loss.version));
    line.push_text(b" ino ");
    line.push_decimal(u64::from(loss.ino));
    line.push_text(b" lost");
    line.push_text(end);
    line
}

/// The line of a node of a damaged name, with the path of its directory where one leads there.
#[tactic(auto, using(std::proofs::Common::append_assoc))]
pub(crate) fn put_loss<T: Sink>(
    addr: u32,
    loss: &Loss,
    directory: Option<&[&[u8]]>,
    sink: &mut T,
) -> Result<(), DeviceFault>
    ensures { PutsTo T.Sink sink.old sink.new (loss_line addr loss.now
        (option_map (λ path. map (λ name. name.now) path.now) directory.entry)) result }
{
    match directory {
        Some(path) => {
            let start = loss_until(addr, loss, b" in ");
            put_path_between(start.as_slice(), path, b"\n", sink)
        }
        None => put_text(sink, loss_until(addr, loss, b"\n").as_slice()),
    }
}

/// The line of a node of other damage.
#[tactic(auto, unfolding(crate::specs::Lines::unknown_line), using(std::proofs::Common::append_assoc))]
fn unknown_line(addr: u32, which: Damage) -> LineBuffer
    ensures { result ≡ unknown_line addr which }
{
    let mut line = LineBuffer::new();
    line.push_hex(8, u64::from(addr));
    line.push_text(b" ");
    line.push_text(damage_name(which));
    line.push_text(b" unknown\n");
    line
}

pub(crate) fn put_unknown<T: Sink>(
    addr: u32,
    which: Damage,
    sink: &mut T,
) -> Result<(), DeviceFault>
    ensures { PutsTo T.Sink sink.old sink.new (unknown_line addr which) result }
{
    put_text(sink, unknown_line(addr, which).as_slice())
}

#[tactic(auto, unfolding(crate::specs::Lines::missing_start), using(std::proofs::Common::append_assoc))]
fn missing_start(pino: u32) -> LineBuffer
    ensures { result ≡ missing_start pino }
{
    let mut line = LineBuffer::new();
    line.push_text(b"missing pino ");
    line.push_decimal(u64::from(pino));
    line.push_text(b" name ");
    line
}

#[tactic(auto, unfolding(crate::specs::Lines::missing_end), using(std::proofs::Common::append_assoc))]
fn missing_end(ino: u32) -> LineBuffer
    ensures { result ≡ missing_end ino }
{
    let mut line = LineBuffer::new();
    line.push_text(b" ino ");
    line.push_decimal(u64::from(ino));
    line.push_text(b"\n");
    line
}

/// The line of a name whose object is missing, with its path where one leads there.
pub(crate) fn put_missing<T: Sink>(
    pino: u32,
    name: &[u8],
    ino: u32,
    path: Option<&[&[u8]]>,
    sink: &mut T,
) -> Result<(), DeviceFault>
    ensures { PutsTo T.Sink sink.old sink.new (missing_line (pino, name.now, ino)
        (option_map (λ path. map (λ name. name.now) path.now) path.entry)) result }
{
    let end = missing_end(ino);
    match path {
        Some(path) => put_path_between(b"missing ", path, end.as_slice(), sink),
        None => put_name_between(missing_start(pino).as_slice(), name, end.as_slice(), sink),
    }
}

/// What each line of a gap begins with, and this text.
#[tactic(auto, unfolding(crate::specs::Lines::gap_start), using(std::proofs::Common::append_assoc))]
fn gap_until(gap: &Gap, end: &[u8]) -> LineBuffer
    requires { length end.now ≤ 32 }
    ensures { result ≡ gap_start gap.now ++ end.now }
{
    let mut line = LineBuffer::new();
    line.push_text(b"gap ino ");
    line.push_decimal(u64::from(gap.ino));
    line.push_text(b" bytes ");
    line.push_decimal(u64::from(gap.from));
    line.push_text(b" to ");
    line.push_decimal(u64::from(gap.to));
    line.push_text(end);
    line
}

/// What the line of a gap in a path begins with.
pub(crate) fn gap_in(gap: &Gap) -> LineBuffer
    ensures { result ≡ gap_start gap.now ++ codes " in " }
{
    gap_until(gap, b" in ")
}

/// The line of a gap in so many more paths than have a line.
#[tactic(auto, using(std::proofs::Common::append_assoc))]
pub(crate) fn put_more_gap<T: Sink>(gap: &Gap, count: u64, sink: &mut T) -> Result<(), DeviceFault>
    ensures { PutsTo T.Sink sink.old sink.new (more_gap_line gap.now count) result }
{
    let start = gap_until(gap, b" and ");
    put_two(start.as_slice(), more_end(count).as_slice(), sink)
}

/// The last line.
#[tactic(auto, unfolding(crate::specs::Lines::totals_shown), using(std::proofs::Common::append_assoc))]
fn totals_shown(totals: &Totals) -> LineBuffer
    ensures { result ≡ totals_shown totals.now }
{
    let mut line = LineBuffer::new();
    line.push_text(b"total damaged ");
    line.push_decimal(totals.damaged as u64);
    line.push_text(b" paths ");
    line.push_decimal(totals.paths);
    line.push_text(b" missing ");
    line.push_decimal(totals.missing as u64);
    line.push_text(b" gaps ");
    line.push_decimal(totals.gaps as u64);
    line.push_text(b"\n");
    line
}

pub(crate) fn put_totals<T: Sink>(totals: &Totals, sink: &mut T) -> Result<(), DeviceFault>
    ensures { PutsTo T.Sink sink.old sink.new (totals_shown totals.now) result }
{
    put_text(sink, totals_shown(totals).as_slice())
}
