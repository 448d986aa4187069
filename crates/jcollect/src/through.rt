//! Collecting the nodes that matter of an image that has compressed ones.

ghost use Rattle.std.specs.Prelude.{IfOk, IfErr, OnOk, List, ℕ};
ghost use Rattle.std.specs.Io.KnownBytes.{Appends};
ghost use Rattle.flashbase.specs.Sinks.{change_of};
ghost use Rattle.jthrough.specs.Addressed.{addressed_nodes};
ghost use Rattle.jcollect.specs.Planning.{IsFound};
ghost use Rattle.jcollect.specs.PlanningThrough.{CompactsMount, CompactsThrough, IsHeldThrough, IsPlanThrough, IsUnplannedThrough, ShowsCompact};

use crate::collecting::{Collected, Plan, addresses_of, is_written};
use crate::fault::{CollectFault, ThroughFault};
use crate::room::bytes_needed;
use crate::writing::put;
use flashbase::Sink;
use jmount::Mounted;
use jnode::Order;
use jscan::Geometry;
use jthrough::{mount_view, nodes_through, view_image};
use std::alloc::{AllocError, Global};

/// The addresses of the nodes of a mounted image that matter, and how many nodes it has, through
/// its compression.
fn kept_addresses<E: Order>(
    alloc: Global,
    mounted: &Mounted<'_>,
    geometry: Geometry,
    contents: &[u8],
) -> Result<(Vec<u32>, usize), AllocError>
    requires { IsHeldThrough E.order geometry.block contents.now mounted.now }
    ensures { IfOk result (λ found.
        IsFound (addressed_nodes E.order geometry.block mounted.now.image) found.0.items
        found.1) }
{
    let nodes = nodes_through::<E>(alloc, mounted.image(), geometry, contents)?;
    let count = nodes.len();
    let kept = jcompact::kept(alloc, mounted, nodes)?;
    Ok((addresses_of(alloc, &kept)?, count))
}

/// Which nodes go out to a flash of so many blocks of an image that was mounted through its
/// compression, and how many bytes they take there. `contents` are those that `view_image` left.
/// The image is scanned once more; O(n log n) for n nodes. No byte is put.
///
/// # Errors
/// As `plan_of`.
pub fn plan_through<E: Order>(
    alloc: Global,
    mounted: &Mounted<'_>,
    geometry: Geometry,
    contents: &[u8],
    blocks: u32,
) -> Result<Plan, CollectFault>
    requires { IsHeldThrough E.order geometry.block contents.now mounted.now }
    ensures planned { IfOk result (IsPlanThrough E.order geometry.block blocks mounted.now) }
    ensures refused { IfErr result
        (IsUnplannedThrough E.order geometry.block blocks mounted.now) }
{
    if mounted.read_only() {
        return Err(CollectFault::ReadOnly);
    }
    if !is_written(geometry, blocks) {
        return Err(CollectFault::Geometry);
    }
    let (addresses, nodes) = match kept_addresses::<E>(alloc, mounted, geometry, contents) {
        Ok(found) => found,
        Err(_) => return Err(CollectFault::OutOfMemory),
    };
    match bytes_needed::<E>(mounted.image(), geometry, blocks, &addresses) {
        Ok(bytes) => Ok(Plan {
            addresses,
            nodes,
            bytes,
        }),
        Err(fault) => Err(fault),
    }
}

/// Puts an image of the nodes that matter of one that was mounted through its compression, each in
/// the form that it has there.
fn compact_mounted<E: Order, S: Sink>(
    alloc: Global,
    mounted: &Mounted<'_>,
    geometry: Geometry,
    contents: &[u8],
    blocks: u32,
    sink: &mut S,
) -> Result<Collected, CollectFault>
    requires { IsHeldThrough E.order geometry.block contents.now mounted.now }
    ensures compacts { CompactsMount E.order geometry.block blocks mounted.now
        (change_of S.Sink sink.old sink.new) result }
    ensures shows { OnOk result ((out : List ℕ)
        × ShowsCompact E.order geometry.block mounted.now.image out
        × Appends (S.taken sink.old) (S.taken sink.new) out) }
{
    let plan = match plan_through::<E>(alloc, mounted, geometry, contents, blocks) {
        Ok(plan) => plan,
        Err(fault) => return Err(fault),
    };
    match put::<E, S>(mounted.image(), geometry, &plan.addresses, sink) {
        Ok(()) => Ok(Collected {
            kept: plan.addresses.len(),
            nodes: plan.nodes,
            bytes: plan.bytes,
        }),
        Err(_) => Err(CollectFault::Sink),
    }
}

/// Puts an image of the nodes that matter of another one, on a flash of so many blocks, and tells
/// what went out. The image is mounted through its compression: each node goes out with the bytes
/// that it has there, a compressed one in its form. So the new image shows the same tree through
/// its compression, and has no findings. O(n log n) for n nodes.
///
/// # Errors
/// `Unmounted` as `jthrough::mount_through`, then `Uncollected` as `compact_into`. Only after `Sink`
/// any byte has gone out: a beginning.
pub fn compact_through<E: Order, S: Sink>(
    alloc: Global,
    image: &[u8],
    geometry: Geometry,
    blocks: u32,
    sink: &mut S,
) -> Result<Collected, ThroughFault>
    ensures compacts { CompactsThrough E.order geometry.block blocks image.now
        (change_of S.Sink sink.old sink.new) result }
    ensures shows { OnOk result ((out : List ℕ)
        × ShowsCompact E.order geometry.block image.now out
        × Appends (S.taken sink.old) (S.taken sink.new) out) }
{
    let mut contents = Vec::new(alloc);
    let view = match view_image::<E>(alloc, image, geometry, &mut contents) {
        Ok(view) => view,
        Err(why) => return Err(ThroughFault::Unmounted(why)),
    };
    let mounted = match mount_view::<E>(alloc, image, geometry, view, &contents) {
        Ok(mounted) => mounted,
        Err(why) => return Err(ThroughFault::Unmounted(why)),
    };
    match compact_mounted::<E, S>(alloc, &mounted, geometry, &contents, blocks, sink) {
        Ok(told) => Ok(told),
        Err(fault) => Err(ThroughFault::Uncollected(fault)),
    }
}
