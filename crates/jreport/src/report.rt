//! The report of an image.

ghost use Rattle.std.specs.Prelude.{◌≡◌, ◌+◌, ◌<◌, ◌≤◌, [], length, IsTrue, IfOk, OnOk, IfErr, IfSome};
ghost use Rattle.flashbase.specs.Sinks.{PutsTo, change_of};
ghost use Rattle.jscan.specs.Counts.{counts_of, extents_below, is_found};
ghost use Rattle.jscan.specs.Image.{is_block_size, greatest_image, block_count};
ghost use Rattle.jscan.specs.PartialScans.{HasScanned};
ghost use Rattle.jscan.specs.Scans.{image_extents};
ghost use Rattle.jreport.specs.Report.{scan_text, lines_below, block_lines, count_in_image};
ghost use Rattle.jscan.specs.Scans.{IsScannable};
ghost use Rattle.jreport.specs.Puts.{IsScanFaultOf, PutsReport};

use crate::blocks::{nothing, put_part, put_total};
use crate::report_fault::ReportFault;
use flashbase::{DeviceFault, FromWriter, Sink};
use jnode::Order;
use jscan::{Counts, GREATEST_IMAGE, Geometry, PartialScan, ScanFault, block_at};
use std::alloc::Global;

/// Puts the lines of block `k` of an image, after those before it.
fn put_block_of<'a, E: Order, T: Sink>(
    image: &'a [u8],
    size: usize,
    k: usize,
    sink: &mut T,
    counts: &mut Counts,
    partial: &mut Option<PartialScan<'a>>,
) -> Result<(), DeviceFault>
    requires size { IsTrue (is_block_size size) }
    requires small { length image.now ≤ greatest_image }
    requires next { k < block_count size image.now }
    requires counts { counts.old ≡ counts_of E.order size image.now k }
    requires scan { IfSome partial.old (HasScanned (extents_below E.order size image.now k)) }
    ensures puts { PutsTo T.Sink sink.old sink.new (block_lines E.order size image.now k) result }
    ensures counts { OnOk result (counts.new ≡ counts_of E.order size image.now (k + 1)) }
    ensures scan { OnOk result
        (IfSome partial.new (HasScanned (extents_below E.order size image.now (k + 1)))) }
{
    let start = k * size;
    put_part::<E, T>(
        sink,
        start as u32,
        block_at(image, start, size),
        counts,
        partial,
    )
}

/// Puts the lines of all blocks of an image, and answers what they count.
fn put_blocks<'a, E: Order, T: Sink>(
    image: &'a [u8],
    size: usize,
    sink: &mut T,
    partial: &mut Option<PartialScan<'a>>,
) -> Result<Counts, DeviceFault>
    requires size { IsTrue (is_block_size size) }
    requires small { length image.now ≤ greatest_image }
    requires scan { IfSome partial.old (HasScanned []) }
    ensures puts { PutsTo T.Sink sink.old sink.new
        (lines_below E.order size image.now (block_count size image.now)) result }
    ensures counts { IfOk result
        (λ counts. counts ≡ counts_of E.order size image.now (block_count size image.now)) }
    ensures scan { OnOk result
        (IfSome partial.new (HasScanned (image_extents E.order size image.now))) }
{
    let mut counts = nothing();
    for k in 0..image.len().div_ceil(size) {
        put_block_of::<E, T>(image, size, k, sink, &mut counts, partial)?;
    }
    Ok(counts)
}

/// Puts the report, as `put_report`. A scan, if one is made, takes in the extents that it shows; it
/// ends where memory runs out, and the report goes on.
#[tactic(auto, unfolding(crate::specs::Report::scan_text))]
pub fn report_and_scan<'a, E: Order, T: Sink>(
    image: &'a [u8],
    geometry: Geometry,
    sink: &mut T,
    partial: &mut Option<PartialScan<'a>>,
) -> Result<u64, ReportFault>
    requires scan { IfSome partial.old (HasScanned []) }
    ensures puts { PutsReport E.order geometry.block image.now
        (change_of T.Sink sink.old sink.new) result }
    ensures scan { OnOk result
        (IfSome partial.new (HasScanned (image_extents E.order geometry.block image.now))) }
{
    if !geometry.is_readable() {
        return Err(ReportFault::Scan(ScanFault::BlockSize));
    }
    if image.len() > GREATEST_IMAGE {
        return Err(ReportFault::Scan(ScanFault::TooLarge));
    }
    let counts = put_blocks::<E, T>(image, geometry.block as usize, sink, partial)?;
    put_total(sink, &counts)?;
    Ok(counts.findings)
}

/// Puts the report of `check --scan` line after line, and answers the number of findings. It takes
/// no memory.
pub fn put_report<E: Order, T: Sink>(
    image: &[u8],
    geometry: Geometry,
    sink: &mut T,
) -> Result<u64, ReportFault>
    ensures { PutsReport E.order geometry.block image.now
        (change_of T.Sink sink.old sink.new) result }
{
    report_and_scan::<E, T>(image, geometry, sink, &mut None)
}

/// A report, and its number of findings.
#[derive(Drop)]
pub struct Lines {
    pub text: Vec<u8>,
    pub findings: u64,
}

/// The report of `check --scan` as one text.
pub fn scan_lines<E: Order>(
    alloc: Global,
    image: &[u8],
    geometry: Geometry,
) -> Result<Lines, ScanFault>
    ensures limits { OnOk result (IsScannable geometry.block image.now) }
    ensures text { IfOk result
        (λ lines. lines.text.items ≡ scan_text E.order geometry.block image.now) }
    ensures findings { IfOk result
        (λ lines. lines.findings ≡ count_in_image is_found E.order geometry.block image.now) }
    ensures fault { IfErr result (IsScanFaultOf geometry.block image.now) }
{
    let mut sink = FromWriter::new(Vec::new(alloc));
    match put_report::<E, FromWriter<Vec<u8>>>(image, geometry, &mut sink) {
        Ok(findings) => Ok(Lines {
            text: sink.into_writer(),
            findings,
        }),
        Err(ReportFault::Scan(fault)) => Err(fault),
        Err(ReportFault::Output) => Err(ScanFault::OutOfMemory),
    }
}
