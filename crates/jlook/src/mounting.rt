//! Mounting an image as it is looked at.

ghost use Rattle.std.specs.Prelude.{◌≡◌, ◌++◌, None, Ok, IfOk, IfSome, OnOk, IsTrue, drop, length, option_map, option_to_list};
ghost use Rattle.std.specs.BTreeSet.{contains};
ghost use Rattle.std.specs.Ordering.{nat_cmp};
ghost use Rattle.jscan.specs.Image.{is_block_size};
ghost use Rattle.jexpand.specs.Expanded.{expanded_node, tile_content};
ghost use Rattle.jview.specs.Through.{through_fault};
ghost use Rattle.jthrough.specs.View.{BeginWith, placed_nodes};
ghost use Rattle.jlook.specs.Look.{AreLookedAt, IsLookAt, IsSightedIfPacked, IsSightedOf};
ghost use Rattle.jlook.specs.Chosen.{nothing_wanted};
ghost use Rattle.jlook.specs.Looked.{Wants};
ghost use Rattle.jlook.specs.Looks.{AnswersLook};

use crate::look::Look;
use crate::looking::look_over;
use crate::sighted::Sighted;
use jexpand::{content_len, node_with_content};
use jmount::{Mounted, mount_nodes, refuse_clashes};
use jnode::{NodeRef, Order, Seen};
use jscan::Geometry;
use jthrough::ViewFault;
use std::alloc::{AllocError, Global};
use std::collections::BTreeSet;

/// The node that a tile gives as it is looked at, if it gives one, by the contents from its own on;
/// and the contents behind its own.
fn node_of<'a, E: Order>(
    image: &[u8],
    geometry: Geometry,
    addr: u32,
    seen: Seen<'a>,
    contents: &'a [u8],
) -> (Option<NodeRef<'a>>, &'a [u8])
    requires readable { IsTrue (is_block_size geometry.block) }
    requires sighted { IsSightedIfPacked E.order geometry.block image.now (addr, seen) }
    requires none { through_fault E.order geometry.block image.now (addr, seen) ≡ None }
    requires contents { BeginWith (tile_content E.order geometry.block image.now (addr, seen))
        contents.now }
    ensures node { result.0 ≡ expanded_node E.order geometry.block image.now (addr, seen.entry) }
    ensures rest { result.1.now
        ≡ drop (length (tile_content E.order geometry.block image.now (addr, seen.entry)))
        contents.now }
{
    match seen {
        Seen::Entry(entry) => (Some(NodeRef::Entry(entry)), contents),
        Seen::Inode(inode) => (Some(NodeRef::Inode(inode)), contents),
        Seen::Compressed { compr } => {
            let seen = Seen::Compressed { compr };
            let len = content_len::<E>(image, geometry, addr, &seen);
            let (content, rest) = contents.split_at(len);
            (
                node_with_content::<E>(image, geometry, addr, seen, content),
                rest,
            )
        }
        _ => (None, contents),
    }
}

/// Adds a node with its address, if there is one.
fn push_node<'a>(
    nodes: &mut Vec<(u32, NodeRef<'a>)>,
    addr: u32,
    node: Option<NodeRef<'a>>,
) -> Result<(), AllocError>
    ensures { OnOk result (nodes.new.items
        ≡ nodes.old.items ++ option_to_list (option_map (λ n. (addr, n)) node.entry)) }
{
    if let Some(node) = node {
        nodes.push((addr, node))?;
    }
    Ok(())
}

/// The nodes that tiles of an image give as they are looked at, each with its address, by the
/// contents of all of them. They may clash.
fn nodes_of<'a, E: Order>(
    alloc: Global,
    image: &[u8],
    geometry: Geometry,
    tiles: Vec<(u32, Seen<'a>)>,
    contents: &'a [u8],
) -> Result<Vec<(u32, NodeRef<'a>)>, AllocError>
    requires readable { IsTrue (is_block_size geometry.block) }
    requires looked { AreLookedAt E.order geometry.block image.now tiles.items contents.now }
    ensures { IfOk result (λ nodes. nodes.items
        ≡ placed_nodes E.order geometry.block image.now tiles.entry.items) }
{
    let mut nodes = Vec::new(alloc);
    let mut rest = contents;
    for (addr, seen) in tiles {
        let (node, after) = node_of::<E>(image, geometry, addr, seen, rest);
        rest = after;
        push_node(&mut nodes, addr, node)?;
    }
    Ok(nodes)
}

/// Mounts what an image shows as it is looked at, by the contents that `look_over` left.
fn mount_look<'a, E: Order>(
    alloc: Global,
    image: &'a [u8],
    geometry: Geometry,
    look: Look<'a>,
    contents: &'a [u8],
) -> Result<Mounted<'a>, ViewFault>
    requires looked { (wants : Wants)
        × IsLookAt wants E.order geometry.block image.now contents.now look }
    ensures { (wants : Wants)
        → IsLookAt wants E.order geometry.block image.now contents.now look.entry
        → AnswersLook wants E.order geometry.block image.now result }
{
    let Look {
        tiles,
        findings,
        read_only,
        refused,
        content: _,
    } = look;
    let nodes = nodes_of::<E>(alloc, image, geometry, tiles, contents)?;
    // The tiles of a look that is refused lie in front of the one that refuses it, so a clash of
    // theirs is the fault of least address, and is looked for first.
    if let Some(why) = refused {
        refuse_clashes(alloc, nodes)?;
        return Err(why);
    }
    match mount_nodes(alloc, image, nodes, findings, read_only) {
        Ok(mounted) => Ok(mounted),
        Err(why) => Err(ViewFault::from(why)),
    }
}

/// Mounts an image that was gone over, if the contents of the objects of these numbers are wanted.
pub(crate) fn mount_sighted<'a, E: Order>(
    alloc: Global,
    image: &'a [u8],
    geometry: Geometry,
    sighted: &Sighted<'a>,
    wanted: &BTreeSet<u32>,
    contents: &'a mut Vec<u8>,
) -> Result<Mounted<'a>, ViewFault>
    requires sighted { IsSightedOf E.order geometry.block image.now sighted.now }
    ensures { AnswersLook (contains nat_cmp wanted.now) E.order geometry.block image.now result }
{
    let look = look_over::<E>(alloc, image, geometry, sighted, wanted, contents)?;
    mount_look::<E>(alloc, image, geometry, look, contents)
}

/// Mounts an image that was gone over, without any contents.
pub(crate) fn mount_without<'a, E: Order>(
    alloc: Global,
    image: &'a [u8],
    geometry: Geometry,
    sighted: &Sighted<'a>,
) -> Result<Mounted<'a>, ViewFault>
    requires sighted { IsSightedOf E.order geometry.block image.now sighted.now }
    ensures { AnswersLook nothing_wanted E.order geometry.block image.now result }
{
    let nothing = BTreeSet::new(alloc);
    let mut contents = Vec::new(alloc);
    let look = look_over::<E>(alloc, image, geometry, sighted, &nothing, &mut contents)?;
    mount_look::<E>(alloc, image, geometry, look, b"")
}

/// The mount of an image that was gone over, if the contents of the objects of these numbers are
/// wanted, and none of these are compressed.
pub(crate) fn mount_plain<'a, E: Order>(
    alloc: Global,
    image: &'a [u8],
    geometry: Geometry,
    sighted: &Sighted<'a>,
    wanted: &BTreeSet<u32>,
) -> Result<Option<Mounted<'a>>, AllocError>
    requires sighted { IsSightedOf E.order geometry.block image.now sighted.now }
    ensures { IfOk result (λ found. IfSome found (λ mounted. AnswersLook
        (contains nat_cmp wanted.now) E.order geometry.block image.now (Ok mounted))) }
{
    let mut contents = Vec::new(alloc);
    let look = look_over::<E>(alloc, image, geometry, sighted, wanted, &mut contents)?;
    if !contents.is_empty() {
        return Ok(None);
    }
    match mount_look::<E>(alloc, image, geometry, look, b"") {
        Ok(mounted) => Ok(Some(mounted)),
        Err(_) => Ok(None),
    }
}

/// Mounts an image as it is looked at, if the contents of the objects of these numbers are wanted.
/// Each compressed node of such an object is decompressed once. A node of another object gives
/// zeros, as many as its range has: nothing refuses it, whether its data are broken, of a method
/// that is not read, or too long. The names, attributes and sizes are those of a mount through, and
/// so are the bytes of the objects that are wanted.
///
/// The contents of the decompressed nodes take the place of the bytes in `contents`, which the mount
/// borrows. n nodes take O(n log n).
///
/// # Errors
/// `BlockSize` or `TooLarge`, before any byte is read. Else of what refuses a node by itself, as it
/// is looked at, and of the nodes that clash so, the one of least address; else `RootKind`.
/// `OutOfMemory` may come at any time.
pub fn mount_looked<'a, E: Order>(
    alloc: Global,
    image: &'a [u8],
    geometry: Geometry,
    wanted: &BTreeSet<u32>,
    contents: &'a mut Vec<u8>,
) -> Result<Mounted<'a>, ViewFault>
    ensures { AnswersLook (contains nat_cmp wanted.now) E.order geometry.block image.now result }
{
    let sighted = Sighted::of::<E>(alloc, image, geometry)?;
    mount_sighted::<E>(alloc, image, geometry, &sighted, wanted, contents)
}
