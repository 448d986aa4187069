//! What an image contains.

ghost use Rattle.std.specs.Prelude.{◌≡◌, ◌↔◌, ◌<◌, Err, None, IfOk, IfErr, OnOk, true, false, length};
ghost use Rattle.jscan.specs.Image.{is_block_size, greatest_image, nodes};
ghost use Rattle.jscan.specs.Scans.{IsScannable, IsNoNode, Scans, first_refused, nodes_before_refusal, findings, is_read_only};

use crate::answer::{PartialScan, Scan};
use crate::geometry::{Geometry, ScanFault};
use crate::image::ImageExtents;
use jnode::Order;
use std::alloc::Global;

/// What an image contains, in the order of the addresses, up to the first node that no image may
/// have. The missing tail of the last block counts as erased.
pub fn scan_to_refusal<'a, E: Order>(
    alloc: Global,
    image: &'a [u8],
    geometry: Geometry,
) -> Result<PartialScan<'a>, ScanFault>
    ensures block_size { result ≡ Err ScanFault.BlockSize ↔ (is_block_size geometry.block ≡ false) }
    ensures too_large { result ≡ Err ScanFault.TooLarge ↔ (is_block_size geometry.block ≡ true)
        × (greatest_image < length image.now) }
    ensures memory { result ≡ Err ScanFault.OutOfMemory → IsScannable geometry.block image.now }
    ensures no_other { IfErr result IsNoNode }
    ensures scannable { OnOk result (IsScannable geometry.block image.now) }
    ensures refused { IfOk result
        (λ partial. partial.refused ≡ first_refused E.order geometry.block image.now) }
    ensures nodes { IfOk result
        (λ partial. partial.nodes.items ≡ nodes_before_refusal E.order geometry.block image.now) }
    ensures all_nodes { IfOk result (λ partial. partial.refused ≡ None
        → partial.nodes.items ≡ nodes E.order geometry.block image.now) }
    ensures findings { IfOk result (λ partial. partial.refused ≡ None
        → partial.findings.items ≡ findings E.order geometry.block image.now) }
    ensures read_only { IfOk result (λ partial. partial.refused ≡ None
        → partial.read_only ≡ is_read_only E.order geometry.block image.now) }
{
    let mut partial = PartialScan::new(alloc);
    for extent in ImageExtents::<E>::new(image, geometry)? {
        if let Some(refusal) = extent.refusal() {
            partial.refused = Some(refusal);
            return Ok(partial);
        }
        partial.add(extent)?;
    }
    Ok(partial)
}

/// What an image that nothing refuses contains, in the order of the addresses. A node that may not
/// be skipped is refused as `Incompatible`, a sound one whose data are compressed as `Compressed`:
/// of these the one of least address.
pub fn scan<'a, E: Order>(
    alloc: Global,
    image: &'a [u8],
    geometry: Geometry,
) -> Result<Scan<'a>, ScanFault>
    ensures { Scans E.order geometry.block image.now result }
{
    let PartialScan {
        nodes,
        findings,
        read_only,
        refused,
    } = scan_to_refusal::<E>(alloc, image, geometry)?;
    match refused {
        Some(refusal) => Err(refusal),
        None => Ok(Scan {
            nodes,
            findings,
            read_only,
        }),
    }
}
