//! The row of a node.

ghost use Rattle.std.specs.Prelude.{◌≡◌, ℕ, IsTrue, Contains, length};
ghost use Rattle.jscan.specs.Image.{is_block_size, sightings};
ghost use Rattle.jscan.specs.Scans.{image_extents};
ghost use Rattle.jexpand.specs.Expanded.{compressed_node_at};
ghost use Rattle.jcalls.specs.NodeRows as rows;

use jnode::{CompressedNode, Dirent, Fill, InodeNode, Order, Seen, compressed_fields};
use jscan::{Extent, ExtentKind, Geometry, block_at};

/// A node: what it is seen as, and each field that is read of it; 0 where it has none.
#[repr(C)]
#[derive(Clone, Copy)]
pub struct NodeRow {
    pub address: u32,
    /// With the bytes up to the next word.
    pub length: u32,
    /// 1 an entry, 2 an inode, 3 a clean marker, 4 padding, 5 obsolete, 6 of extended attributes, 7
    /// of a type that may be passed over, 8 of one beside which nothing may be written, 9 of one
    /// that may not be skipped, 10 an inode whose data are compressed, 11 damaged.
    pub kind: u32,
    /// The type at 7 to 9, the check that failed at 11.
    pub detail: u32,
    /// The object.
    pub number: u32,
    pub version: u32,
    /// Of an entry: the directory, the time, the kind of the object.
    pub directory: u32,
    pub entry_time: u32,
    pub entry_type: u32,
    /// Of an inode.
    pub mode: u32,
    pub uid: u32,
    pub gid: u32,
    /// Of the whole object.
    pub size: u32,
    pub atime: u32,
    pub mtime: u32,
    pub ctime: u32,
    /// The range of the object's bytes that it gives: where it begins, and its length.
    pub offset: u32,
    pub range: u32,
    /// How these are stored: 0 as they are, 1 zeros, else the number of the compression.
    pub method: u32,
    /// 0.
    pub spare: u32,
    /// In how many bytes of the node, from 68 behind its address on. Of an entry: the bytes of the
    /// name, from 40 on.
    pub stored: u64,
}

fn plain_row(address: u32, length: u32, kind: u32, detail: u32) -> NodeRow
    ensures { result ≡ rows.plain_row address length kind detail }
{
    NodeRow {
        address,
        length,
        kind,
        detail,
        number: 0,
        version: 0,
        directory: 0,
        entry_time: 0,
        entry_type: 0,
        mode: 0,
        uid: 0,
        gid: 0,
        size: 0,
        atime: 0,
        mtime: 0,
        ctime: 0,
        offset: 0,
        range: 0,
        method: 0,
        spare: 0,
        stored: 0,
    }
}

fn entry_node_row(address: u32, length: u32, entry: &Dirent<'_>) -> NodeRow
    ensures { result ≡ rows.entry_node_row address length entry.now }
{
    NodeRow {
        number: entry.ino,
        version: entry.version,
        directory: entry.pino,
        entry_time: entry.mctime,
        entry_type: u32::from(entry.kind),
        stored: entry.name.len() as u64,
        ..plain_row(address, length, 1, 0)
    }
}

/// An inode node of this kind, whose bytes are stored so, and in so many.
fn inode_row(extent: (u32, u32), kind: u32, node: &InodeNode<'_>, stored: (u32, u64)) -> NodeRow
    ensures { result
        ≡ rows.inode_row extent.0 extent.1 kind node.now stored.0 stored.1 }
{
    NodeRow {
        number: node.ino,
        version: node.version,
        mode: node.mode,
        uid: u32::from(node.uid),
        gid: u32::from(node.gid),
        size: node.isize,
        atime: node.atime,
        mtime: node.mtime,
        ctime: node.ctime,
        offset: node.offset,
        range: node.dsize,
        method: stored.0,
        stored: stored.1,
        ..plain_row(extent.0, extent.1, kind, 0)
    }
}

/// How an inode node's bytes are stored.
fn stored_as(fill: &Fill<'_>) -> (u32, u64)
    ensures { result ≡ (rows.storage_method fill.now, rows.storage_len fill.now) }
{
    match fill {
        Fill::Zero => (1, 0),
        Fill::Data(bytes) => (0, bytes.len() as u64),
    }
}

/// The node at an address where a compressed one is sighted.
fn compressed_node<'a, E: Order>(
    image: &'a [u8],
    geometry: Geometry,
    addr: u32,
) -> CompressedNode<'a>
    requires readable { IsTrue (is_block_size geometry.block) }
    requires sighted { (compr : ℕ)
        × Contains (sightings E.order geometry.block image.now) (addr, Seen.Compressed compr) }
    ensures { result ≡ compressed_node_at E.order geometry.block image.now addr }
{
    let start = addr / geometry.block * geometry.block;
    let place = (addr % geometry.block) as usize;
    let block = block_at(image, start as usize, geometry.block as usize);
    compressed_fields::<E>(&block.slice(place, block.len() - place))
}

fn compressed_row(address: u32, length: u32, node: &CompressedNode<'_>) -> NodeRow
    ensures { result ≡ rows.compressed_row address length node.now }
{
    let stored = (u32::from(node.compr), node.data.len() as u64);
    inode_row((address, length), 10, &node.inode_with(Fill::Zero), stored)
}

/// The row of a node that is seen as this in an image.
fn seen_row<E: Order>(
    image: &[u8],
    geometry: Geometry,
    address: u32,
    length: u32,
    seen: &Seen<'_>,
) -> NodeRow
    requires readable { IsTrue (is_block_size geometry.block) }
    requires sighted { Contains (sightings E.order geometry.block image.now) (address, seen.now) }
    ensures { result
        ≡ rows.seen_row E.order geometry.block image.now address length seen.now }
{
    match seen {
        Seen::Entry(entry) => entry_node_row(address, length, entry),
        Seen::Inode(node) => inode_row((address, length), 2, node, stored_as(&node.fill)),
        Seen::Marker => plain_row(address, length, 3, 0),
        Seen::Padding => plain_row(address, length, 4, 0),
        Seen::Obsolete => plain_row(address, length, 5, 0),
        Seen::Attribute => plain_row(address, length, 6, 0),
        Seen::Skippable { nodetype } => plain_row(address, length, 7, u32::from(*nodetype)),
        Seen::ReadOnly { nodetype } => plain_row(address, length, 8, u32::from(*nodetype)),
        Seen::Incompatible { nodetype } => plain_row(address, length, 9, u32::from(*nodetype)),
        Seen::Compressed { .. } => {
            let node = compressed_node::<E>(image, geometry, address);
            compressed_row(address, length, &node)
        }
        Seen::Damaged { which } => plain_row(address, length, 11, which.number()),
    }
}

/// The row of an extent of an image, if it is a node.
pub(crate) fn node_row<E: Order>(
    image: &[u8],
    geometry: Geometry,
    extent: &Extent<'_>,
) -> Option<NodeRow>
    requires readable { IsTrue (is_block_size geometry.block) }
    requires there { Contains (image_extents E.order geometry.block image.now) extent.now }
    ensures { result ≡ rows.node_row E.order geometry.block image.now extent.now }
{
    match &extent.kind {
        ExtentKind::Tiled(seen) => Some(seen_row::<E>(
            image,
            geometry,
            extent.addr,
            extent.len,
            seen,
        )),
        ExtentKind::Erased | ExtentKind::OtherOrder | ExtentKind::Dirt => None,
    }
}
