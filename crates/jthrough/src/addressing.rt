//! The nodes of an image that mounts through its compression, with their addresses.

ghost use Rattle.std.specs.Prelude.{◌≡◌, IfOk};
ghost use Rattle.jexpand.specs.Expanded.{unpacked_bytes};
ghost use Rattle.jview.specs.Through.{IsSoundThrough};
ghost use Rattle.jthrough.specs.Addressed.{addressed_nodes};
ghost use Rattle.jthrough.specs.View.{BeginWith};

use crate::mounting::{node_of, push_node};
use jnode::{NodeRef, Order};
use jscan::{Geometry, Sightings};
use std::alloc::{AllocError, Global};

/// The nodes of an image that mounts through its compression, each with its address, in the order
/// of their addresses. A compressed one has the bytes that its data stand for: `contents` are those
/// that `view_image` left, and none of them is copied. The image is scanned once more.
///
/// # Errors
/// Out of memory.
pub fn nodes_through<'a, E: Order>(
    alloc: Global,
    image: &'a [u8],
    geometry: Geometry,
    contents: &'a [u8],
) -> Result<Vec<(u32, NodeRef<'a>)>, AllocError>
    requires sound { IsSoundThrough E.order geometry.block image.now }
    requires contents { BeginWith (unpacked_bytes E.order geometry.block image.now) contents.now }
    ensures { IfOk result (λ nodes. nodes.items
        ≡ addressed_nodes E.order geometry.block image.now) }
{
    let Ok(sightings) = Sightings::<E>::new(image, geometry) else {
        return Err(AllocError);
    };
    let mut nodes = Vec::new(alloc);
    let mut rest = contents;
    for (addr, seen) in sightings {
        let (node, after) = node_of::<E>(image, geometry, addr, seen, rest);
        rest = after;
        push_node(&mut nodes, addr, node)?;
    }
    Ok(nodes)
}
