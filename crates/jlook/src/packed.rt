//! What a sighted tile is looked at as.

ghost use Rattle.std.specs.Prelude.{◌≡◌, ℕ, IsTrue, Contains};
ghost use Rattle.std.specs.BTreeSet.{contains};
ghost use Rattle.std.specs.Ordering.{nat_cmp};
ghost use Rattle.jscan.specs.Image.{is_block_size, sightings};
ghost use Rattle.jexpand.specs.Expanded.{compressed_node_at};
ghost use Rattle.jlook.specs.Looked.{looked_by, looked_inode, zeroed};

use jnode::{CompressedNode, Fill, InodeNode, Order, Seen, compressed_fields};
use jscan::{Geometry, block_at};
use std::collections::BTreeSet;

/// The compressed node at an address where one is sighted.
fn packed_at<'a, E: Order>(image: &'a [u8], geometry: Geometry, addr: u32) -> CompressedNode<'a>
    requires readable { IsTrue (is_block_size geometry.block) }
    requires sighted { (compr : ℕ)
        × Contains (sightings E.order geometry.block image.now) (addr, Seen.Compressed compr) }
    ensures { result ≡ compressed_node_at E.order geometry.block image.now addr }
{
    let start = addr / geometry.block * geometry.block;
    let place = (addr % geometry.block) as usize;
    let block = block_at(image, start as usize, geometry.block as usize);
    compressed_fields::<E>(&block.slice(place, block.len() - place))
}

/// The inode node of the same fields that gives zeros.
fn zeroed<'a>(node: InodeNode<'_>) -> InodeNode<'a>
    ensures { result ≡ zeroed node.entry }
{
    InodeNode {
        ino: node.ino,
        version: node.version,
        mode: node.mode,
        uid: node.uid,
        gid: node.gid,
        isize: node.isize,
        atime: node.atime,
        mtime: node.mtime,
        ctime: node.ctime,
        offset: node.offset,
        dsize: node.dsize,
        fill: Fill::Zero,
    }
}

/// An inode node, with its bytes if they are wanted.
fn looked_inode<'a>(node: InodeNode<'a>, wanted: &BTreeSet<u32>) -> InodeNode<'a>
    ensures { result ≡ looked_inode (contains nat_cmp wanted.now) node.entry }
{
    if wanted.contains(&node.ino) {
        node
    } else {
        zeroed(node)
    }
}

/// What a sighted tile is looked at as, if the contents of the objects of these numbers are wanted.
/// Nothing is decompressed.
pub(crate) fn looked<'a, E: Order>(
    image: &[u8],
    geometry: Geometry,
    wanted: &BTreeSet<u32>,
    addr: u32,
    seen: Seen<'a>,
) -> Seen<'a>
    requires readable { IsTrue (is_block_size geometry.block) }
    requires sighted { Contains (sightings E.order geometry.block image.now) (addr, seen) }
    ensures { result ≡ looked_by (contains nat_cmp wanted.now)
        (compressed_node_at E.order geometry.block image.now addr) seen.entry }
{
    match seen {
        Seen::Inode(node) => Seen::Inode(looked_inode(node, wanted)),
        Seen::Compressed { compr } => {
            let packed = packed_at::<E>(image, geometry, addr);
            if wanted.contains(&packed.ino) {
                Seen::Compressed { compr }
            } else {
                Seen::Inode(packed.inode_with(Fill::Zero))
            }
        }
        other => other,
    }
}
