//! Mounting an image.

ghost use Rattle.std.specs.Prelude.{ℕ, IfErr, OnOk};
ghost use Rattle.jnode.specs.declared.order.Endian.{Endian};
ghost use Rattle.jscan.specs.PartialScans.{IsScanOf};
ghost use Rattle.jmount.specs.Clash.{NoneClash};
ghost use Rattle.jmount.specs.Collected.{StopsCollecting, without_addresses};
ghost use Rattle.jmount.specs.Mounts.{Answers};
ghost use Rattle.jmount.specs.MountsNodes.{AreMountable, AnswersNodes};

use crate::collecting::{NodeTables, collect};
use crate::directories::keep_directories;
use crate::fault::MountFault;
use crate::mounted::{Mounted, ROOT};
use jnode::{NodeRef, Order};
use jscan::{Finding, Geometry, PartialScan, scan_to_refusal};
use std::alloc::Global;

/// Mounts an image: the file system that its nodes make. The missing tail of the last block counts
/// as erased. Each byte of the nodes' data is checked once and none is copied; n nodes take O(n log
/// n).
///
/// # Errors
/// `BlockSize` or `TooLarge`, before any byte is read. Else of the nodes that no image may have, as
/// `Incompatible`, `Compressed` or `Clash`, the one of least address; else `RootKind`.
/// `OutOfMemory` may come at any time.
pub fn mount<'a, E: Order>(
    alloc: Global,
    image: &'a [u8],
    geometry: Geometry,
) -> Result<Mounted<'a>, MountFault>
    ensures { Answers E.order geometry.block image.now result }
{
    let partial = scan_to_refusal::<E>(alloc, image, geometry)?;
    mount_scanned(alloc, image, partial)
}

/// Mounts an image that was scanned, up to its first refusal if it has one: the nodes are not read
/// again.
///
/// # Errors
/// As `mount`, but for those that come before any byte is read.
pub fn mount_scanned<'a>(
    alloc: Global,
    image: &'a [u8],
    partial: PartialScan<'a>,
) -> Result<Mounted<'a>, MountFault>
    requires scanned { (e : Endian) × (size : ℕ) × IsScanOf e size image.now partial }
    ensures { (e : Endian) (size : ℕ) → IsScanOf e size image.now partial.entry
        → Answers e size image.now result }
{
    let PartialScan {
        nodes,
        findings,
        read_only,
        refused,
    } = partial;
    // The partial scan stops at the first node that is refused: all nodes that it gives lie below
    // that one, so a clash of theirs is the fault of least address, and is looked for first.
    if let Some(refusal) = refused {
        refuse_clashes(alloc, nodes)?;
        return Err(MountFault::from(refusal));
    }
    mount_nodes(alloc, image, nodes, findings, read_only)
}

/// Mounts nodes, each with its address: the file system that they make, of which the image, the
/// findings and whether writing is forbidden are what is given. n nodes take O(n log n).
///
/// # Errors
/// `Clash`, at the first node of the list that clashes with one before it; else `RootKind`.
/// `OutOfMemory` may come at any time.
pub fn mount_nodes<'a>(
    alloc: Global,
    image: &'a [u8],
    nodes: Vec<(u32, NodeRef<'a>)>,
    findings: Vec<Finding>,
    read_only: bool,
) -> Result<Mounted<'a>, MountFault>
    requires mountable { AreMountable nodes.items }
    ensures { AnswersNodes image.now nodes.entry.items findings.items read_only result }
{
    let NodeTables {
        names,
        inodes,
        greatest,
    } = collect(alloc, nodes)?;
    let named = keep_directories(alloc, inodes.into_objects()?, &names)?;
    let next = u64::from(greatest) + 1;
    let mounted = Mounted::new(alloc, image, named, names, next, findings, read_only)?;
    if !mounted.is_directory(ROOT) {
        return Err(MountFault::RootKind);
    }
    Ok(mounted)
}

/// Refuses nodes, each with its address, of which two clash.
///
/// # Errors
/// `Clash`, at the first node of the list that clashes with one before it. `OutOfMemory` may come
/// at any time.
pub fn refuse_clashes(alloc: Global, nodes: Vec<(u32, NodeRef<'_>)>) -> Result<(), MountFault>
    ensures ok { OnOk result (NoneClash (without_addresses nodes.entry.items)) }
    ensures err { IfErr result (StopsCollecting nodes.entry.items) }
{
    collect(alloc, nodes)?;
    Ok(())
}
