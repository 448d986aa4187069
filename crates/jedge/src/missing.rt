//! Bytes of a file that no node has: in their place zeros are printed.
ghost use Rattle.std.specs.Prelude.{◌≡◌, ◌-◌, IfErr, IfOk};
ghost use Rattle.flashbase.specs.Sinks.{PutsTo};
ghost use Rattle.jscan.specs.Scans.{IsScannable};
ghost use Rattle.jedge.specs.Missing.{missing_bytes, missing_in, bytes_missing_line};

use crate::fault::Fault;
use flashbase::{DeviceFault, Sink};
use jgaps::{Gap, gaps_of_file};
use jline::{LineBuffer, put_text};
use jmount::Mounted;
use jnode::Order;
use jreport::noted;
use jscan::Geometry;
use std::alloc::Global;

/// How many bytes a gap is.
fn gap_len(gap: &Gap) -> u64
    ensures { result ≡ gap.now.to - gap.now.from }
{
    u64::from(gap.to.saturating_sub(gap.from))
}

/// How many bytes gaps are, or the greatest u64.
fn missing_in(gaps: &[Gap]) -> u64
    ensures { result ≡ missing_in gaps.now }
{
    let mut missing = 0u64;
    for gap in gaps {
        missing = missing.saturating_add(gap_len(gap));
    }
    missing
}

/// How many bytes of the file that a path leads to no node has, if the image has findings. Else the
/// image is not walked once more.
pub(crate) fn count_missing<E: Order>(
    alloc: Global,
    mounted: &Mounted<'_>,
    geometry: Geometry,
    path: &[u8],
) -> Result<u64, Fault>
    requires scannable { IsScannable geometry.block mounted.now.image }
    ensures ok { IfOk result
        (λ n. n ≡ missing_bytes E.order geometry.block path.now mounted.now) }
    ensures err { IfErr result (λ f. f ≡ Fault.OutOfMemory) }
{
    if noted(mounted) == 0 {
        return Ok(0);
    }
    let Ok(ino) = mounted.find(path) else {
        return Ok(0);
    };
    match gaps_of_file::<E>(alloc, mounted, geometry, ino) {
        Ok(gaps) => Ok(missing_in(&gaps)),
        Err(_) => Err(Fault::OutOfMemory),
    }
}

/// Writes the note on so many bytes.
#[tactic(auto, unfolding(crate::specs::Missing::bytes_missing_line))]
fn write_missing(line: &mut LineBuffer, missing: u64)
    ensures { line.new ≡ bytes_missing_line missing }
{
    line.clear();
    line.push_text(b"jffs2_image: note: bytes that no node has, zeros here: ");
    line.push_decimal(missing);
    line.push_text(b"; see damage\n");
}

/// Puts it.
pub(crate) fn put_missing<T: Sink>(missing: u64, sink: &mut T) -> Result<(), DeviceFault>
    ensures { PutsTo T.Sink sink.old sink.new (bytes_missing_line missing) result }
{
    let mut line = LineBuffer::new();
    write_missing(&mut line, missing);
    put_text(sink, line.as_slice())
}
