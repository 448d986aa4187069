//! The report of a source, block by block.

ghost use Rattle.std.specs.Prelude.{◌<◌, ◌≤◌, ◌/◌, ◌≡◌, ◌↔◌, ◌⊎◌, IsFalse, IfSome, IsErrOf, OnOk, Some, length, option_map};
ghost use Rattle.std.specs.Io.KnownBytes.{Appends};
ghost use Rattle.flashbase.specs.Sinks.{change_of};
ghost use Rattle.jscan.specs.Image.{greatest_image, is_block_size};
ghost use Rattle.jscan.specs.Stream.{IsAtStart, failures_of, rest_of};
ghost use Rattle.jreport.specs.Report.{lines_below};
ghost use Rattle.jreport.specs.Stream.{HandsBack, OfSomeImage, PutsStream, ReadsTo};

use crate::blocks::{nothing, put_block, put_total};
use crate::faults::ProgramFault;
use flashbase::{LoadFault, Sink, Source};
use jnode::Order;
use jscan::{BlockReader, Geometry, ScanFault};
use std::alloc::Global;

/// Puts the report of `check --scan` of a source's bytes line after line, and answers the number of
/// findings. It takes the memory of one block, however long the image is. The source is handed back
/// after what was read; it is gone where nothing is, since the size of a block is refused or there
/// is no memory for one.
pub fn stream_lines<E: Order, S: Source, T: Sink>(
    alloc: Global,
    source: S,
    geometry: Geometry,
    sink: &mut T,
) -> (Result<u64, ProgramFault<'static>>, Option<S>)
    // The report is that of all the source's bytes. At a fault a beginning of it went out, and the
    // sink failed only if it is blamed.
    ensures put { OfSomeImage (S.rest source) (λ image. PutsStream E.order geometry.block image
        (change_of T.Sink sink.old sink.new) result.0) }
    ensures within { OnOk result.0
        (IfSome (S.rest source) (λ image. length image ≤ greatest_image)) }

    // The size of a block is judged first, and then the memory of one is taken. Nothing is put
    // before.
    ensures block_size { IsErrOf result.0 (ProgramFault.Scan ScanFault.BlockSize)
        ↔ IsFalse (is_block_size geometry.block) }
    ensures unput { IsErrOf result.0 (ProgramFault.Scan ScanFault.BlockSize)
        ⊎ IsErrOf result.0 (ProgramFault.Load LoadFault.OutOfMemory)
        → sink.new ≡ sink.old }

    // The source failed exactly where it is blamed, once.
    ensures back { HandsBack (S.failures source) (option_map (λ left. S.failures left) result.1)
        result.0 }

    // How far it was read. Where it failed, the lines of the blocks in front of the one that it
    // broke off have gone out, and nothing else.
    ensures left { IfSome result.1 (λ left. IfSome (S.rest source)
        (λ image. ReadsTo E.order geometry.block image (T.taken sink.old) (T.taken sink.new)
        (S.rest left) result.0)) }

    // An image is too large only where it is longer than the greatest. The lines of the blocks up
    // to there have gone out.
    ensures too_large { IsErrOf result.0 (ProgramFault.Load LoadFault.TooLarge)
        → IfSome (S.rest source) (λ image. greatest_image < length image) }
    ensures before_limit { IsErrOf result.0 (ProgramFault.Load LoadFault.TooLarge)
        → IfSome (S.rest source)
        (λ image. Appends (T.taken sink.old) (T.taken sink.new)
        (lines_below E.order geometry.block image (greatest_image / geometry.block))) }
{
    let mut reader = match BlockReader::new(alloc, source, geometry) {
        Ok(reader) => reader,
        Err(fault) => return (Err(ProgramFault::from(fault)), None),
    };
    let answer = put_blocks::<E, S, T>(&mut reader, geometry, sink);
    (answer, Some(reader.into_source()))
}

/// Puts the report of the blocks of a reader that has given none.
fn put_blocks<E: Order, S: Source, T: Sink>(
    reader: &mut BlockReader<S>,
    geometry: Geometry,
    sink: &mut T,
) -> Result<u64, ProgramFault<'static>>
    requires { IsAtStart geometry.block reader.old }
    ensures put { OfSomeImage (rest_of reader.old) (λ image. PutsStream E.order geometry.block image
        (change_of T.Sink sink.old sink.new) result) }
    ensures within { OnOk result
        (IfSome (rest_of reader.old) (λ image. length image ≤ greatest_image)) }
    ensures back { HandsBack (failures_of reader.old) (Some (failures_of reader.new)) result }
    ensures left { IfSome (rest_of reader.old) (λ image.
        ReadsTo E.order geometry.block image (T.taken sink.old) (T.taken sink.new)
        (rest_of reader.new) result) }
    ensures too_large { IsErrOf result (ProgramFault.Load LoadFault.TooLarge)
        → IfSome (rest_of reader.old) (λ image. greatest_image < length image) }
    ensures before_limit { IsErrOf result (ProgramFault.Load LoadFault.TooLarge)
        → IfSome (rest_of reader.old)
        (λ image. Appends (T.taken sink.old) (T.taken sink.new)
        (lines_below E.order geometry.block image (greatest_image / geometry.block))) }
{
    let mut counts = nothing();
    let mut start = 0;
    while let Some(block) = reader.next()? {
        put_block::<E, T>(sink, start, block, &mut counts)?;
        start += geometry.block;
    }
    put_total(sink, &counts)?;
    Ok(counts.findings)
}
