//! What the blocks of a source contain, counted block by block.

ghost use Rattle.std.specs.Prelude.{◌≡◌, ◌↔◌, ◌+◌, ◌*◌, ◌<◌, ◌≤◌, Err, IfSome, OnOk, Some, false, length, min, option_map};
ghost use Rattle.jscan.specs.Counts.{counts_of, no_counts};
ghost use Rattle.jscan.specs.Image.{block_count, greatest_image, is_block_size};
ghost use Rattle.jscan.specs.Stream.{IsAtStart, IsReadTo, ComesBack, failures_of, rest_of};

use crate::counts::Counts;
use crate::geometry::Geometry;
use crate::stream::{BlockReader, StreamFault};
use flashbase::Source;
use jnode::Order;
use std::alloc::Global;

/// Counts what the source's blocks contain, through one block of memory. At a fault the counts are
/// those of the blocks before it. The source is handed back after what was read; it is gone where
/// nothing is, since the size of a block is refused or there is no memory for one.
pub fn scan_stream<E: Order, S: Source>(
    alloc: Global,
    source: S,
    geometry: Geometry,
    counts: &mut Counts,
) -> (Result<(), StreamFault>, Option<S>)
    ensures counted { IfSome (S.rest source)
        (λ image. counts.new ≡ counts_of E.order geometry.block image counts.new.blocks) }
    ensures all { OnOk result.0
        (IfSome (S.rest source) (λ image. counts.new.blocks ≡ block_count geometry.block image)) }
    ensures within { OnOk result.0
        (IfSome (S.rest source) (λ image. length image ≤ greatest_image)) }
    ensures block_size { result.0 ≡ Err StreamFault.BlockSize
        ↔ (is_block_size geometry.block ≡ false) }
    ensures unread { result.0 ≡ Err StreamFault.BlockSize → counts.new ≡ no_counts }
    ensures memory { result.0 ≡ Err StreamFault.OutOfMemory → counts.new ≡ no_counts }

    // Only where the next block holds a byte past the greatest image, within which those counted
    // end.
    ensures too_large { result.0 ≡ Err StreamFault.TooLarge
        → IfSome (S.rest source)
        (λ image.
        greatest_image < min (length image) ((counts.new.blocks + 1) * geometry.block)) }
    ensures before_the_end { result.0 ≡ Err StreamFault.TooLarge
        → counts.new.blocks * geometry.block ≤ greatest_image }

    // The source failed exactly where it is blamed, once.
    ensures back { ComesBack (S.failures source) (option_map (λ left. S.failures left) result.1)
        result.0 }

    // It is at its end, or within the block after those counted where it failed, or past the
    // greatest image.
    ensures left { IfSome result.1 (λ left. IfSome (S.rest source)
        (λ image. IsReadTo geometry.block (counts.new.blocks * geometry.block) image (S.rest left)
        result.0)) }
{
    *counts = Counts {
        blocks: 0,
        entries: 0,
        inodes: 0,
        findings: 0,
    };
    let mut reader = match BlockReader::new(alloc, source, geometry) {
        Ok(reader) => reader,
        Err(fault) => return (Err(fault), None),
    };
    let answer = count_blocks::<E, S>(&mut reader, geometry, counts);
    (answer, Some(reader.into_source()))
}

/// Counts the blocks of a reader that has given none, where nothing is counted yet.
fn count_blocks<E: Order, S: Source>(
    reader: &mut BlockReader<S>,
    geometry: Geometry,
    counts: &mut Counts,
) -> Result<(), StreamFault>
    requires start { IsAtStart geometry.block reader.old }
    requires uncounted { counts.old ≡ no_counts }
    ensures counted { IfSome (rest_of reader.old)
        (λ image. counts.new ≡ counts_of E.order geometry.block image counts.new.blocks) }
    ensures all { OnOk result
        (IfSome (rest_of reader.old)
        (λ image. counts.new.blocks ≡ block_count geometry.block image)) }
    ensures within { OnOk result
        (IfSome (rest_of reader.old) (λ image. length image ≤ greatest_image)) }
    ensures too_large { result ≡ Err StreamFault.TooLarge
        → IfSome (rest_of reader.old)
        (λ image.
        greatest_image < min (length image) ((counts.new.blocks + 1) * geometry.block)) }
    ensures before_the_end { result ≡ Err StreamFault.TooLarge
        → counts.new.blocks * geometry.block ≤ greatest_image }
    ensures read { ComesBack (failures_of reader.old) (Some (failures_of reader.new)) result }
    ensures left { IfSome (rest_of reader.old) (λ image.
        IsReadTo geometry.block (counts.new.blocks * geometry.block) image (rest_of reader.new)
        result) }
{
    let mut start = 0;
    while let Some(block) = reader.next()? {
        counts.add_block::<E>(start, block);
        start += geometry.block;
    }
    Ok(())
}
