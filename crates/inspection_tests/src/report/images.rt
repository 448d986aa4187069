//! Images that the tests read: raw bytes of nodes, and nodes that are written.

use byteorder::LittleEndian;
use jscan::Geometry;
use std::alloc::{AllocError, Global};
use test_support::{
    Attributes, DIRECTORY, ENTRY_A, FILE, LITTLE_MARKER, Node, SYMLINK, image_of_nodes,
};

pub(crate) const BLOCK: usize = 4096;

pub(crate) const GEOMETRY: Geometry = Geometry { block: 4096 };

/// A block with room for a symlink of more than 4,096 bytes, and for a file of several pieces.
pub(crate) const LARGE: Geometry = Geometry { block: 16384 };

/// The same with another node_crc than its bytes have.
pub(crate) const DAMAGED_INODE_2: &[u8] = &[
    0x85, 0x19, 0x02, 0xe0, 0x44, 0x00, 0x00, 0x00, 0x1d, 0xfb, 0xf7, 0x98, 0x02, 0x00, 0x00, 0x00,
    0x01, 0x00, 0x00, 0x00, 0xa4, 0x81, 0x00, 0x00, 0x00, 0x00, 0x00, 0x00, 0x00, 0x00, 0x00, 0x00,
    0x00, 0x00, 0x00, 0x00, 0x00, 0x00, 0x00, 0x00, 0x00, 0x00, 0x00, 0x00, 0x00, 0x00, 0x00, 0x00,
    0x00, 0x00, 0x00, 0x00, 0x00, 0x00, 0x00, 0x00, 0x00, 0x00, 0x00, 0x00, 0x00, 0x00, 0x00, 0x00,
    0x14, 0xd0, 0xc4, 0x70,
];

/// The magic number in the other byte order.
pub(crate) const OTHER_ORDER: &[u8] = &[0x19, 0x85, 0xe0, 0x01];

/// A sound inode node whose data are compressed by method 6.
pub(crate) const COMPRESSED: &[u8] = &[
    0x85, 0x19, 0x02, 0xe0, 0x48, 0x00, 0x00, 0x00, 0xa5, 0x44, 0x21, 0xd2, 0x02, 0x00, 0x00, 0x00,
    0x03, 0x00, 0x00, 0x00, 0xa4, 0x81, 0x00, 0x00, 0x00, 0x00, 0x00, 0x00, 0x08, 0x00, 0x00, 0x00,
    0x00, 0x00, 0x00, 0x00, 0x00, 0x00, 0x00, 0x00, 0x00, 0x00, 0x00, 0x00, 0x00, 0x00, 0x00, 0x00,
    0x04, 0x00, 0x00, 0x00, 0x08, 0x00, 0x00, 0x00, 0x06, 0x06, 0x00, 0x00, 0xd1, 0x24, 0x78, 0x97,
    0x20, 0x97, 0x85, 0x37, 0x01, 0x02, 0x03, 0x04,
];

/// An image of raw bytes: `start` bytes 0xFF, these nodes one after another, and 0xFF up to `end`;
/// then the nodes of `tail`, and 0xFF up to `len`.
#[derive(Clone, Copy)]
pub(crate) struct Raw {
    pub(crate) start: usize,
    pub(crate) nodes: &'static [&'static [u8]],
    pub(crate) end: usize,
    pub(crate) tail: &'static [&'static [u8]],
    pub(crate) len: usize,
}

/// A block with a marker and an entry.
pub(crate) const ONE_BLOCK: Raw = Raw {
    start: 0,
    nodes: &[&LITTLE_MARKER, &ENTRY_A],
    end: BLOCK,
    tail: &[],
    len: BLOCK,
};

/// The same, and a block with an entry.
pub(crate) const TWO_BLOCKS: Raw = Raw {
    start: 0,
    nodes: &[&LITTLE_MARKER, &ENTRY_A],
    end: BLOCK,
    tail: &[&ENTRY_A],
    len: 2 * BLOCK,
};

/// Nodes one after another, and 0xFF up to `end`.
fn append(
    image: &mut Vec<u8>,
    nodes: &'static [&'static [u8]],
    end: usize,
) -> Result<(), AllocError> {
    for node in nodes {
        image.extend_from_slice(node)?;
    }
    let end = end.max(image.len());
    image.resize(end, 0xFF)
}

pub(crate) fn raw_image(alloc: Global, raw: Raw) -> Result<Vec<u8>, AllocError> {
    let mut image = vec![in alloc; 0xFF; raw.start]?;
    append(&mut image, raw.nodes, raw.end)?;
    append(&mut image, raw.tail, raw.len)?;
    Ok(image)
}

/// Of an object that is not owned otherwise.
const PLAIN: Attributes = Attributes {
    uid: 0,
    gid: 0,
    atime: 0,
    mtime: 0,
};

/// An image of these nodes.
pub(crate) fn image_of(alloc: Global, nodes: &[Node<'_>]) -> Result<Vec<u8>, &'static str> {
    image_of_nodes::<LittleEndian>(alloc, nodes, PLAIN).map_err(|_| "no image")
}

/// Directory 2 in the root, with the root and itself in it.
pub(crate) const CIRCLE: &[Node<'static>] = &[
    Node::Inode(2, DIRECTORY, b""),
    Node::Entry(1, 2, b"d"),
    Node::Entry(2, 1, b"x"),
    Node::Entry(2, 2, b"y"),
];

pub(crate) const CIRCLE_LINES: &[u8] = b"d 0755 0 0 0 0 1 /\n\
d 0755 0 0 0 0 2 /d\n\
d 0755 0 0 0 0 1 /d/x (again)\n\
d 0755 0 0 0 0 2 /d/y (again)\n";

/// The part of it from `/d/x/d` on: each of the two directories is entered once, whatever is above.
pub(crate) const CIRCLE_BELOW: &[u8] = b"d 0755 0 0 0 0 2 /d/x/d\n\
d 0755 0 0 0 0 1 /d/x/d/x\n\
d 0755 0 0 0 0 2 /d/x/d/x/d (again)\n\
d 0755 0 0 0 0 2 /d/x/d/y (again)\n";

/// A root, a directory with a file in it, a symlink, and a name that dangles.
pub(crate) const TREE: &[Node<'static>] = &[
    Node::Owned(1, DIRECTORY, b"", 7, 8, 1234567890),
    Node::Inode(2, 0o041700, b""),
    Node::Inode(3, FILE, b"hi"),
    Node::Inode(4, SYMLINK, b"/d/f"),
    Node::Entry(1, 2, b"d"),
    Node::Entry(2, 3, b"f"),
    Node::Entry(1, 4, b"s"),
    Node::Entry(1, 9, b"x"),
];

/// Two unlike nodes of one number and version.
pub(crate) const CLASH: &[Node<'static>] = &[
    Node::Inode(2, FILE, b""),
    Node::Inode(2, 0o100600, b""),
];

/// A root that is a regular file.
pub(crate) const FILE_AS_ROOT: &[Node<'static>] = &[Node::Inode(1, FILE, b"")];

/// Directories in one another, each with a name after them: a directory, a name that dangles, and
/// in the root a second one of a file at the end of the way.
pub(crate) const DEEP: &[Node<'static>] = &[
    Node::Inode(2, DIRECTORY, b""),
    Node::Inode(3, DIRECTORY, b""),
    Node::Inode(4, DIRECTORY, b""),
    Node::Inode(5, FILE, b"end"),
    Node::Inode(6, DIRECTORY, b""),
    Node::Entry(1, 2, b"a"),
    Node::Entry(2, 3, b"b"),
    Node::Entry(3, 4, b"c"),
    Node::Entry(4, 5, b"f"),
    Node::Entry(3, 9, b"none"),
    Node::Entry(2, 6, b"e"),
    Node::Entry(1, 5, b"z"),
];

pub(crate) const DEEP_LISTED: &[u8] = b"d 0755 0 0 0 0 1 /\n\
d 0755 0 0 0 0 2 /a\n\
d 0755 0 0 0 0 3 /a/b\n\
d 0755 0 0 0 0 4 /a/b/c\n\
- 0644 0 0 3 0 5 /a/b/c/f\n\
d 0755 0 0 0 0 6 /a/e\n\
- 0644 0 0 3 0 5 /z\n";

/// The part of it from `/a/b` on.
pub(crate) const DEEP_BELOW: &[u8] = b"d 0755 0 0 0 0 3 /a/b\n\
d 0755 0 0 0 0 4 /a/b/c\n\
- 0644 0 0 3 0 5 /a/b/c/f\n";
