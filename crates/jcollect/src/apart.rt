//! Collecting the nodes that matter of an image of which nodes clash: of those that stay.

ghost use Rattle.std.specs.Prelude.{◌≡◌, ◌<◌, ℕ, List, AllPairs, Contains, IfOk, IfErr, OnOk};
ghost use Rattle.std.specs.Io.KnownBytes.{Appends};
ghost use Rattle.flashbase.specs.Sinks.{change_of};
ghost use Rattle.jscan.specs.Scans.{IsScannable};
ghost use Rattle.jmount.specs.Collected.{without_addresses};
ghost use Rattle.jmount.specs.MountsNodes.{AreMountable};
ghost use Rattle.jmount.specs.StateOf.{state_of};
ghost use Rattle.jcompact.specs.Matters.{Placed};
ghost use Rattle.jcollect.specs.Planning.{IsFound, IsNoPlan, IsPlan, IsSoundNodeAt, MayPut};
ghost use Rattle.jcollect.specs.PlanningApart.{ArePlannedApart, CompactsApart, IsUnplannedApart, ShowsApart};

use crate::collecting::{Collected, Plan, addresses_of, is_written};
use crate::fault::{CollectFault, ThroughFault};
use crate::room::bytes_needed;
use crate::staying::{Stayed, mount_staying};
use crate::writing::put;
use flashbase::Sink;
use jclash::LeftOut;
use jmount::Mounted;
use jnode::{NodeRef, Order};
use jscan::Geometry;
use jthrough::view_image;
use std::alloc::{AllocError, Global};

/// Which nodes of an image go out, and those that were left out.
#[derive(Drop)]
pub struct PlanApart {
    pub plan: Plan,
    pub left: Vec<LeftOut>,
}

/// What went out, and the nodes that were left out.
#[derive(Drop)]
pub struct CollectedApart {
    pub told: Collected,
    pub left: Vec<LeftOut>,
}

/// The addresses of those of some nodes that matter, and how many they are.
fn kept_of(
    alloc: Global,
    mounted: &Mounted<'_>,
    nodes: Vec<(u32, NodeRef<'_>)>,
) -> Result<(Vec<u32>, usize), AllocError>
    requires mountable { AreMountable nodes.items }
    requires by_address { AllPairs (λ m n. m.0 < n.0) nodes.items }
    requires made { mounted.now.state ≡ state_of (without_addresses nodes.items) }
    ensures { IfOk result (λ found. IsFound nodes.entry.items found.0.items found.1) }
{
    let count = nodes.len();
    let kept = jcompact::kept(alloc, mounted, nodes)?;
    Ok((addresses_of(alloc, &kept)?, count))
}

/// Which of these nodes go out to a flash of so many blocks, of the file system that they make.
fn plan_nodes<E: Order>(
    alloc: Global,
    mounted: &Mounted<'_>,
    nodes: Vec<(u32, NodeRef<'_>)>,
    geometry: Geometry,
    blocks: u32,
) -> Result<Plan, CollectFault>
    requires mountable { AreMountable nodes.items }
    requires by_address { AllPairs (λ m n. m.0 < n.0) nodes.items }
    requires made { mounted.now.state ≡ state_of (without_addresses nodes.items) }
    requires sighted { (n : Placed) → Contains nodes.items n
        → IsSoundNodeAt E.order geometry.block mounted.now.image n.0 }
    ensures planned { IfOk result
        (IsPlan nodes.entry.items E.order geometry.block blocks mounted.now) }
    ensures refused { IfErr result
        (IsNoPlan nodes.entry.items E.order geometry.block blocks mounted.now) }
{
    if mounted.read_only() {
        return Err(CollectFault::ReadOnly);
    }
    if !is_written(geometry, blocks) {
        return Err(CollectFault::Geometry);
    }
    let (addresses, nodes) = match kept_of(alloc, mounted, nodes) {
        Ok(found) => found,
        Err(_) => return Err(CollectFault::OutOfMemory),
    };
    match bytes_needed::<E>(mounted.image(), geometry, blocks, &addresses) {
        Ok(bytes) => Ok(Plan {
            addresses,
            nodes,
            bytes,
        }),
        Err(fault) => Err(fault),
    }
}

/// Which nodes of an image go out to a flash of so many blocks where some clash: of the nodes, seen
/// through the compression, those stay that none of a higher address clashes with, and of these the
/// ones go out that matter. O(n log n) for n nodes. No byte is put.
///
/// # Errors
/// `Unmounted`, as `mount_staying`, then `Uncollected`, as `plan_through`.
pub fn plan_apart<E: Order>(
    alloc: Global,
    image: &[u8],
    geometry: Geometry,
    blocks: u32,
) -> Result<PlanApart, ThroughFault>
    ensures planned { IfOk result (λ done. ArePlannedApart E.order geometry.block blocks image.now
        done.left.items done.plan.addresses.items done.plan.nodes done.plan.bytes) }
    ensures refused { IfErr result (IsUnplannedApart E.order geometry.block blocks image.now) }
    ensures scannable { OnOk result (IsScannable geometry.block image.now) }
    ensures may { IfOk result
        (λ done. MayPut E.order geometry.block image.now done.plan.addresses.items) }
{
    let mut contents = Vec::new(alloc);
    let view = match view_image::<E>(alloc, image, geometry, &mut contents) {
        Ok(view) => view,
        Err(why) => return Err(ThroughFault::Unmounted(why)),
    };
    let stayed = match mount_staying::<E>(alloc, image, geometry, view, &contents) {
        Ok(stayed) => stayed,
        Err(why) => return Err(ThroughFault::Unmounted(why)),
    };
    let Stayed {
        mounted,
        nodes,
        left,
        count,
    } = stayed;
    match plan_nodes::<E>(alloc, &mounted, nodes, geometry, blocks) {
        Ok(plan) => Ok(PlanApart {
            plan: Plan {
                addresses: plan.addresses,
                nodes: count,
                bytes: plan.bytes,
            },
            left,
        }),
        Err(fault) => Err(ThroughFault::Uncollected(fault)),
    }
}

/// Puts an image of the nodes that matter of one of which nodes clash, on a flash of so many blocks:
/// each node of those that stay, in the form that it has. It has no findings, mounts through its
/// compression, and shows the tree of the nodes that stay.
///
/// # Errors
/// As `plan_apart`, before a byte is put. Only after `Sink` any byte has gone out: a beginning.
pub fn compact_apart<E: Order, S: Sink>(
    alloc: Global,
    image: &[u8],
    geometry: Geometry,
    blocks: u32,
    sink: &mut S,
) -> Result<CollectedApart, ThroughFault>
    ensures compacts { CompactsApart E.order geometry.block blocks image.now
        (change_of S.Sink sink.old sink.new) result }
    ensures shows { IfOk result (λ done. (out : List ℕ)
        × ShowsApart E.order geometry.block image.now done.left.items out
        × Appends (S.taken sink.old) (S.taken sink.new) out) }
{
    let planned = match plan_apart::<E>(alloc, image, geometry, blocks) {
        Ok(planned) => planned,
        Err(fault) => return Err(fault),
    };
    let PlanApart { plan, left } = planned;
    match put::<E, S>(image, geometry, &plan.addresses, sink) {
        Ok(()) => {
            let told = Collected {
                kept: plan.addresses.len(),
                nodes: plan.nodes,
                bytes: plan.bytes,
            };
            Ok(CollectedApart { told, left })
        }
        Err(_) => Err(ThroughFault::Uncollected(CollectFault::Sink)),
    }
}
