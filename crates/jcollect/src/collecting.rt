//! Collecting the nodes of a mounted image that matter.

ghost use Rattle.std.specs.Prelude.{◌≡◌, IfOk, IfErr, OnOk, List, ℕ};
ghost use Rattle.std.specs.Io.KnownBytes.{Appends};
ghost use Rattle.flashbase.specs.Sinks.{change_of};
ghost use Rattle.jscan.specs.Image.{nodes};
ghost use Rattle.jmount.specs.Mounts.{IsMountOf};
ghost use Rattle.jlog.specs.Places.{is_writable_flash};
ghost use Rattle.jcompact.specs.Compacted.{IsCompactOf};
ghost use Rattle.jcollect.specs.Collecting.{addresses_of};
ghost use Rattle.jcollect.specs.Planning.{Compacts, IsFound, IsPlanOf, IsUnplanned};

use crate::fault::CollectFault;
use crate::room::bytes_needed;
use crate::writing::put;
use flashbase::Sink;
use jmount::Mounted;
use jnode::{NodeRef, Order};
use jscan::{GREATEST_IMAGE, Geometry, scan};
use std::alloc::{AllocError, Global};

/// The least size of a block that is written, in bytes.
const LEAST_WRITTEN: u32 = 8192;

/// Which nodes of an image go out, and what is told of them.
#[derive(Drop)]
pub struct Plan {
    /// Their addresses, in order.
    pub addresses: Vec<u32>,
    /// How many sound nodes the image has.
    pub nodes: usize,
    /// How many bytes go out.
    pub bytes: u32,
}

/// What went out.
#[derive(Clone, Copy, Debug, PartialEq, Eq)]
pub struct Collected {
    /// How many nodes.
    pub kept: usize,
    /// Of how many sound nodes of the image.
    pub nodes: usize,
    pub bytes: u32,
}

/// Whether a flash of so many blocks is one that is written.
pub(crate) fn is_written(geometry: Geometry, blocks: u32) -> bool
    ensures { result ≡ is_writable_flash geometry.block blocks }
{
    let bytes = u64::from(blocks) * u64::from(geometry.block);
    geometry.is_readable()
        && LEAST_WRITTEN <= geometry.block
        && 0 < blocks
        && bytes <= GREATEST_IMAGE as u64
}

/// Where nodes lie.
pub(crate) fn addresses_of(
    alloc: Global,
    nodes: &[(u32, NodeRef<'_>)],
) -> Result<Vec<u32>, AllocError>
    ensures { IfOk result (λ found. found.items ≡ addresses_of nodes.now) }
{
    let mut addresses = Vec::new(alloc);
    for node in nodes {
        addresses.push(node.0)?;
    }
    Ok(addresses)
}

/// The addresses of the nodes of a mounted image that matter, and how many sound nodes it has.
fn kept_addresses<E: Order>(
    alloc: Global,
    mounted: &Mounted<'_>,
    geometry: Geometry,
) -> Result<(Vec<u32>, usize), AllocError>
    requires { IsMountOf E.order geometry.block mounted.now }
    ensures { IfOk result (λ found.
        IsFound (nodes E.order geometry.block mounted.now.image) found.0.items found.1) }
{
    let Ok(found) = scan::<E>(alloc, mounted.image(), geometry) else {
        return Err(AllocError);
    };
    let count = found.nodes.len();
    let kept = jcompact::kept(alloc, mounted, found.nodes)?;
    Ok((addresses_of(alloc, &kept)?, count))
}

/// Which nodes of a mounted image go out to a flash of so many blocks, and how many bytes they take
/// there. The image is scanned once more; O(n log n) for n nodes. No byte is put.
///
/// # Errors
/// All but `Sink`, in the order of [`CollectFault`]. Out of memory at any time.
pub fn plan_of<E: Order>(
    alloc: Global,
    mounted: &Mounted<'_>,
    geometry: Geometry,
    blocks: u32,
) -> Result<Plan, CollectFault>
    requires { IsMountOf E.order geometry.block mounted.now }
    ensures planned { IfOk result (IsPlanOf E.order geometry.block blocks mounted.now) }
    ensures refused { IfErr result (IsUnplanned E.order geometry.block blocks mounted.now) }
{
    if mounted.read_only() {
        return Err(CollectFault::ReadOnly);
    }
    if !is_written(geometry, blocks) {
        return Err(CollectFault::Geometry);
    }
    let (addresses, nodes) = match kept_addresses::<E>(alloc, mounted, geometry) {
        Ok(found) => found,
        Err(_) => return Err(CollectFault::OutOfMemory),
    };
    match bytes_needed::<E>(mounted.image(), geometry, blocks, &addresses) {
        Ok(bytes) => Ok(Plan {
            addresses,
            nodes,
            bytes,
        }),
        Err(fault) => Err(fault),
    }
}

/// Puts an image of the nodes of a mounted one that matter, on a flash of so many blocks, and tells
/// what went out. It shows the same tree, and has no findings.
///
/// # Errors
/// As `plan_of`, before a byte is put. `Sink`: it failed after a beginning.
pub fn compact_into<E: Order, S: Sink>(
    alloc: Global,
    mounted: &Mounted<'_>,
    geometry: Geometry,
    blocks: u32,
    sink: &mut S,
) -> Result<Collected, CollectFault>
    requires { IsMountOf E.order geometry.block mounted.now }
    ensures compacts { Compacts E.order geometry.block blocks mounted.now
        (change_of S.Sink sink.old sink.new) result }
    ensures shows { OnOk result ((out : List ℕ)
        × IsCompactOf E.order geometry.block mounted.now.image out
        × Appends (S.taken sink.old) (S.taken sink.new) out) }
{
    let plan = match plan_of::<E>(alloc, mounted, geometry, blocks) {
        Ok(plan) => plan,
        Err(fault) => return Err(fault),
    };
    match put::<E, S>(mounted.image(), geometry, &plan.addresses, sink) {
        Ok(()) => Ok(Collected {
            kept: plan.addresses.len(),
            nodes: plan.nodes,
            bytes: plan.bytes,
        }),
        Err(_) => Err(CollectFault::Sink),
    }
}
