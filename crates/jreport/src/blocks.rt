//! The lines of one block, and the last line.

ghost use Rattle.std.specs.Prelude.{◌≡◌, ◌%◌, ◌^◌, ◌+◌, ◌<◌, ◌≤◌, List, [], ◌∷◌, ◌++◌, length, IfSome, OnOk};
ghost use Rattle.flashbase.specs.Sinks.{PutsTo};
ghost use Rattle.jscan.specs.Counts.{block_counted, counted, no_counts};
ghost use Rattle.jscan.specs.Extents.{extents};
ghost use Rattle.jscan.specs.PartialScans.{HasScanned};
ghost use Rattle.jscan.specs.declared.extent.Extent.{Extent};
ghost use Rattle.jreport.specs.Forms.{extent_line, shown_name};
ghost use Rattle.jreport.specs.Report.{lines_of_block, totals_line, CountsHaveRoom};

use crate::forms::{write_block, write_extent, write_total};
use flashbase::{DeviceFault, Part, Sink};
use jline::{LineBuffer, put_text};
use jnode::Order;
use jscan::{Counts, Extent, Extents, PartialScan};

/// The counts before the first block.
pub fn nothing() -> Counts
    ensures { result ≡ no_counts }
{
    Counts {
        blocks: 0,
        entries: 0,
        inodes: 0,
        findings: 0,
    }
}

/// Puts the line of an extent, and counts it.
fn put_extent<T: Sink>(
    sink: &mut T,
    line: &mut LineBuffer,
    counts: &mut Counts,
    extent: &Extent<'_>,
) -> Result<(), DeviceFault>
    requires name { length (shown_name extent.now.kind) ≤ 255 }
    requires room { CountsHaveRoom counts.old 1 }
    ensures puts { PutsTo T.Sink sink.old sink.new (extent_line extent.now) result }
    ensures counts { OnOk result (counts.new ≡ counted counts.old extent.now.kind) }
{
    write_extent(line, extent);
    put_text(sink, line.as_slice())?;
    counts.add(&extent.kind);
    Ok(())
}

/// Gives an extent to a scan, if one is made. It ends where memory runs out.
fn scan_extent<'a>(partial: &mut Option<PartialScan<'a>>, extent: Extent<'a>)
    ensures { (ss : List Extent) → IfSome partial.old (HasScanned ss)
        → IfSome partial.new (HasScanned (ss ++ extent.entry ∷ [])) }
{
    if let Some(mut scan) = partial.take() {
        if scan.take(extent).is_ok() {
            *partial = Some(scan);
        }
    }
}

/// Puts the lines of the next block, whose bytes begin at the address `start`, and counts what they
/// report. A scan, if one is made, takes in its extents; it ends where memory runs out.
#[tactic(auto, using(crate::proofs::ExtentLemmas::length_extents))]
pub fn put_part<'a, E: Order, T: Sink>(
    sink: &mut T,
    start: u32,
    block: Part<'a>,
    counts: &mut Counts,
    partial: &mut Option<PartialScan<'a>>,
) -> Result<(), DeviceFault>
    requires whole_words { length block % 4 ≡ 0 }
    requires addressed { start + length block < 2 ^ 32 }
    requires room { CountsHaveRoom counts.old (length block + 1) }
    ensures puts { PutsTo T.Sink sink.old sink.new
        (lines_of_block counts.old.blocks (extents E.order start block.entry)) result }
    ensures counts { OnOk result
        (counts.new ≡ block_counted counts.old (extents E.order start block.entry)) }
    ensures scan { (before : List Extent) → IfSome partial.old (HasScanned before)
        → OnOk result
        (IfSome partial.new (HasScanned (before ++ extents E.order start block.entry))) }
{
    let mut line = LineBuffer::new();
    write_block(&mut line, counts.blocks);
    put_text(sink, line.as_slice())?;
    counts.blocks += 1;
    for extent in Extents::<E>::of_part(start, block) {
        put_extent(sink, &mut line, counts, &extent)?;
        scan_extent(partial, extent);
    }
    Ok(())
}

/// The same of a block of which all bytes are there, with no scan.
pub fn put_block<E: Order, T: Sink>(
    sink: &mut T,
    start: u32,
    block: &[u8],
    counts: &mut Counts,
) -> Result<(), DeviceFault>
    requires whole_words { length block.now % 4 ≡ 0 }
    requires addressed { start + length block.now < 2 ^ 32 }
    requires room { CountsHaveRoom counts.old (length block.now + 1) }
    ensures puts { PutsTo T.Sink sink.old sink.new
        (lines_of_block counts.old.blocks (extents E.order start block.now)) result }
    ensures counts { OnOk result
        (counts.new ≡ block_counted counts.old (extents E.order start block.now)) }
{
    put_part::<E, T>(sink, start, whole(block), counts, &mut None)
}

/// Bytes of which none is missing.
fn whole(bytes: &[u8]) -> Part<'_>
    ensures { result ≡ bytes.now }
{
    Part::new(bytes, 0)
}

/// Puts the last line of a report.
pub fn put_total<T: Sink>(sink: &mut T, counts: &Counts) -> Result<(), DeviceFault>
    ensures { PutsTo T.Sink sink.old sink.new (totals_line counts.now) result }
{
    let mut line = LineBuffer::new();
    write_total(
        &mut line,
        counts.blocks,
        counts.entries,
        counts.inodes,
        counts.findings,
    );
    put_text(sink, line.as_slice())
}
