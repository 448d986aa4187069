//! The nodes of an image that matter.

ghost use Rattle.std.specs.Prelude.{◌≡◌, ◌++◌, IfOk, OnOk, option_to_list};
ghost use Rattle.jscan.specs.Image.{node_sighted, nodes};
ghost use Rattle.jscan.specs.Scans.{IsScannable};
ghost use Rattle.jmount.specs.Mounts.{IsMountOf};
ghost use Rattle.jcompact.specs.Matters.{AreWhatMatters};

use crate::keeping::kept;
use crate::ranks::Placed;
use jmount::Mounted;
use jnode::{NodeRef, Order, Seen};
use jscan::{Geometry, Sightings};
use std::alloc::{AllocError, Global};

/// Adds what is seen at an address, if it is a node.
fn push_node<'a>(nodes: &mut Vec<Placed<'a>>, addr: u32, seen: Seen<'a>) -> Result<(), AllocError>
    ensures { OnOk result (nodes.new.items
        ≡ nodes.old.items ++ option_to_list (node_sighted (addr, seen.entry))) }
{
    match seen {
        Seen::Entry(entry) => nodes.push((addr, NodeRef::Entry(entry)))?,
        Seen::Inode(inode) => nodes.push((addr, NodeRef::Inode(inode)))?,
        _ => {}
    }
    Ok(())
}

/// The nodes of an image, each with its address.
fn nodes_of<'a, E: Order>(
    alloc: Global,
    image: &'a [u8],
    geometry: Geometry,
) -> Result<Vec<Placed<'a>>, AllocError>
    requires { IsScannable geometry.block image.now }
    ensures { IfOk result (λ found. found.items ≡ nodes E.order geometry.block image.now) }
{
    let mut nodes = Vec::new(alloc);
    let Ok(sightings) = Sightings::<E>::new(image, geometry) else {
        return Ok(nodes);
    };
    for (addr, seen) in sightings {
        push_node(&mut nodes, addr, seen)?;
    }
    Ok(nodes)
}

/// The nodes of an image that was mounted, as far as they matter: as `kept` says. The image is
/// scanned once more.
///
/// # Errors
/// Out of memory.
pub fn kept_in<'a, E: Order>(
    alloc: Global,
    mounted: &Mounted<'a>,
    geometry: Geometry,
) -> Result<Vec<(u32, NodeRef<'a>)>, AllocError>
    requires { IsMountOf E.order geometry.block mounted.now }
    ensures { IfOk result (λ kept. AreWhatMatters
        (nodes E.order geometry.block mounted.now.image) kept.items) }
{
    let nodes = nodes_of::<E>(alloc, mounted.image(), geometry)?;
    kept(alloc, mounted, nodes)
}
