//! Mounting an image through its compression.

ghost use Rattle.std.specs.Prelude.{◌≡◌, ◌++◌, None, IfOk, OnOk, IsTrue, Contains, drop, length, option_map, option_to_list};
ghost use Rattle.jscan.specs.Image.{is_block_size, sightings};
ghost use Rattle.jexpand.specs.Expanded.{expanded_node, tile_content};
ghost use Rattle.jview.specs.Through.{through_fault};
ghost use Rattle.jthrough.specs.MountsThrough.{AnswersThrough};
ghost use Rattle.jthrough.specs.View.{AreSeen, BeginWith, IsViewOf, placed_nodes};

use crate::fault::ViewFault;
use crate::view::View;
use crate::viewing::view_image;
use jexpand::{content_len, node_with_content};
use jmount::{Mounted, mount_nodes, refuse_clashes};
use jnode::{NodeRef, Order, Seen};
use jscan::Geometry;
use std::alloc::{AllocError, Global};

/// The node that a tile gives, if it gives one, by the contents from its own on; and the contents
/// behind its own.
pub(crate) fn node_of<'a, E: Order>(
    image: &[u8],
    geometry: Geometry,
    addr: u32,
    seen: Seen<'a>,
    contents: &'a [u8],
) -> (Option<NodeRef<'a>>, &'a [u8])
    requires readable { IsTrue (is_block_size geometry.block) }
    requires sighted { Contains (sightings E.order geometry.block image.now) (addr, seen) }
    requires none { through_fault E.order geometry.block image.now (addr, seen) ≡ None }
    requires contents { BeginWith (tile_content E.order geometry.block image.now (addr, seen))
        contents.now }
    ensures node { result.0 ≡ expanded_node E.order geometry.block image.now (addr, seen.entry) }
    ensures rest { result.1.now
        ≡ drop (length (tile_content E.order geometry.block image.now (addr, seen.entry)))
        contents.now }
{
    match seen {
        Seen::Entry(entry) => (Some(NodeRef::Entry(entry)), contents),
        Seen::Inode(inode) => (Some(NodeRef::Inode(inode)), contents),
        Seen::Compressed { compr } => {
            let seen = Seen::Compressed { compr };
            let len = content_len::<E>(image, geometry, addr, &seen);
            let (content, rest) = contents.split_at(len);
            (
                node_with_content::<E>(image, geometry, addr, seen, content),
                rest,
            )
        }
        _ => (None, contents),
    }
}

/// Adds a node with its address, if there is one.
pub(crate) fn push_node<'a>(
    nodes: &mut Vec<(u32, NodeRef<'a>)>,
    addr: u32,
    node: Option<NodeRef<'a>>,
) -> Result<(), AllocError>
    ensures { OnOk result (nodes.new.items
        ≡ nodes.old.items ++ option_to_list (option_map (λ n. (addr, n)) node.entry)) }
{
    if let Some(node) = node {
        nodes.push((addr, node))?;
    }
    Ok(())
}

/// The nodes that tiles of an image give, each with its address, by the contents of all of them.
/// They may clash.
///
/// # Errors
/// Out of memory.
pub fn nodes_of<'a, E: Order>(
    alloc: Global,
    image: &[u8],
    geometry: Geometry,
    tiles: Vec<(u32, Seen<'a>)>,
    contents: &'a [u8],
) -> Result<Vec<(u32, NodeRef<'a>)>, AllocError>
    requires readable { IsTrue (is_block_size geometry.block) }
    requires seen { AreSeen E.order geometry.block image.now tiles.items contents.now }
    ensures { IfOk result (λ nodes. nodes.items
        ≡ placed_nodes E.order geometry.block image.now tiles.entry.items) }
{
    let mut nodes = Vec::new(alloc);
    let mut rest = contents;
    for (addr, seen) in tiles {
        let (node, after) = node_of::<E>(image, geometry, addr, seen, rest);
        rest = after;
        push_node(&mut nodes, addr, node)?;
    }
    Ok(nodes)
}

/// Mounts what an image shows through its compression: the file system of its nodes, of which each
/// compressed one has the bytes that its data stand for, at its own address. The image, findings
/// and addresses of the mount are those of the image itself. `contents` are those that `view_image`
/// left: nothing is decompressed again, and no byte is copied. n nodes take O(n log n).
///
/// # Errors
/// Of what refuses the view and the nodes that clash, the one of least address; else `RootKind`.
/// `OutOfMemory` may come at any time.
pub fn mount_view<'a, E: Order>(
    alloc: Global,
    image: &'a [u8],
    geometry: Geometry,
    view: View<'a>,
    contents: &'a [u8],
) -> Result<Mounted<'a>, ViewFault>
    requires viewed { IsViewOf E.order geometry.block image.now contents.now view }
    ensures { AnswersThrough E.order geometry.block image.now result }
{
    let View {
        tiles,
        findings,
        read_only,
        refused,
        content: _,
    } = view;
    let nodes = nodes_of::<E>(alloc, image, geometry, tiles, contents)?;
    // The tiles of a view that is refused lie in front of the one that refuses it, so a clash of
    // theirs is the fault of least address, and is looked for first.
    if let Some(why) = refused {
        refuse_clashes(alloc, nodes)?;
        return Err(why);
    }
    match mount_nodes(alloc, image, nodes, findings, read_only) {
        Ok(mounted) => Ok(mounted),
        Err(why) => Err(ViewFault::from(why)),
    }
}

/// Mounts an image through its compression: as `view_image`, and then `mount_view` of what it
/// found. The contents of the compressed nodes take the place of the bytes in `contents`, which the
/// mount borrows.
///
/// # Errors
/// `BlockSize` or `TooLarge`, before any byte is read. Else of what refuses a node by itself and of
/// the nodes that clash, once they are expanded, the one of least address; else `RootKind`.
/// `OutOfMemory` may come at any time.
pub fn mount_through<'a, E: Order>(
    alloc: Global,
    image: &'a [u8],
    geometry: Geometry,
    contents: &'a mut Vec<u8>,
) -> Result<Mounted<'a>, ViewFault>
    ensures { AnswersThrough E.order geometry.block image.now result }
{
    let view = view_image::<E>(alloc, image, geometry, contents)?;
    mount_view::<E>(alloc, image, geometry, view, contents)
}
