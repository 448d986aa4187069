//! Images that the tests extract.

use byteorder::LittleEndian;
use jscan::Geometry;
use std::alloc::Global;
use test_support::{Attributes, Node, SYMLINK, image_of_nodes};

pub(crate) const LARGE: Geometry = Geometry { block: 16384 };

const ATTRIBUTES: Attributes = Attributes {
    uid: 1000,
    gid: 1001,
    atime: 5,
    mtime: 7,
};

/// An image of these nodes. An object is of owner 1000 and group 1001, with the times 5 and 7.
pub(crate) fn image_of(alloc: Global, nodes: &[Node<'_>]) -> Result<Vec<u8>, &'static str> {
    image_of_nodes::<LittleEndian>(alloc, nodes, ATTRIBUTES).map_err(|_| "no image")
}

/// A directory with a file in it, a symlink, a further name of the file, and a name that dangles.
pub(crate) const PLAIN: &[Node<'static>] = &[
    Node::Inode(2, 0o041700, b""),
    Node::Inode(3, 0o104755, b"hi"),
    Node::Inode(4, SYMLINK, b"/d/f"),
    Node::Entry(1, 2, b"d"),
    Node::Entry(2, 3, b"f"),
    Node::Entry(1, 4, b"s"),
    Node::Entry(1, 3, b"t"),
    Node::Entry(1, 4, b"u"),
    Node::Entry(1, 9, b"x"),
];
