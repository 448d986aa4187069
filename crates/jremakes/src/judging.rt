//! What is judged of an image before a file is made of it.
ghost use Rattle.std.specs.Prelude.{◌≡◌, Err, IfOk, None, OnOk};
ghost use Rattle.jscan.specs.Scans.{IsScannable};
ghost use Rattle.jconvert.specs.Apart.{HaveRoom};
ghost use Rattle.jconvert.specs.Converting.{convert_fault};
ghost use Rattle.jconvert.specs.Holding.{IsHeldOf};
ghost use Rattle.jedge.specs.Acts.{seen_as};
ghost use Rattle.jremakes.specs.Judging.{ArePartedOf, IsCompressible, IsConvertible, parted_nodes};

use jconvert::{ConvertFault, Judged, Parted, judge, judge_plain, part};
use jedge::fault::Fault;
use jedge::subject::conversion_refusal;
use jnode::Order;
use jscan::Geometry;
use std::alloc::Global;

/// Whether an image can be decompressed. Of what its compressed data stand for at most so many
/// bytes are held.
pub(crate) fn judge_converted<E: Order>(
    alloc: Global,
    image: &[u8],
    geometry: Geometry,
    most: usize,
) -> Result<Judged, Fault>
    ensures judged { IsConvertible E.order geometry.block image.now
        (seen_as (λ judged. judged.told) result) }
    ensures scannable { OnOk result (IsScannable geometry.block image.now) }
    ensures held { IfOk result
        (λ judged. IsHeldOf E.order geometry.block image.now judged.held.items) }
{
    match judge::<E>(alloc, image, geometry, most) {
        Ok(judged) => Ok(judged),
        Err(fault) => Err(Fault::Refused(conversion_refusal(fault))),
    }
}

/// Whether an image can be compressed, and how many nodes it has.
pub(crate) fn judge_packed<E: Order>(
    alloc: Global,
    image: &[u8],
    geometry: Geometry,
) -> Result<u64, Fault>
    ensures judged { IsCompressible E.order geometry.block image.now result }
    ensures accepted { OnOk result (convert_fault E.order geometry.block image.now ≡ None) }
    ensures scannable { OnOk result (IsScannable geometry.block image.now) }
{
    match judge_plain::<E>(alloc, image, geometry) {
        Ok(nodes) => Ok(nodes),
        Err(fault) => Err(Fault::Refused(conversion_refusal(fault))),
    }
}

/// The nodes of an image that stay, and those that one of a higher address clashes with.
pub(crate) fn parted<'a, E: Order>(
    alloc: Global,
    image: &'a [u8],
    geometry: Geometry,
    held: &'a [u8],
) -> Result<Parted<'a>, Fault>
    requires accepted { convert_fault E.order geometry.block image.now ≡ None }
    requires held { IsHeldOf E.order geometry.block image.now held.now }
    ensures { ArePartedOf E.order geometry.block image.now (seen_as parted_nodes result) }
{
    match part::<E>(alloc, image, geometry, held) {
        Ok(parted) => Ok(parted),
        Err(_) => Err(Fault::Refused(conversion_refusal(ConvertFault::OutOfMemory))),
    }
}
