//! Small images, as lists of objects and names, and as lists of nodes.

use jnode::{Dirent, Fill, InodeNode, Order, Part, WriteFault, write_entry, write_inode};
use std::alloc::{AllocError, Global};

/// Objects, each with its number, version, mode and size, and names, each with its directory,
/// version, number and text.
#[derive(Clone, Copy)]
pub struct Tree {
    pub objects: &'static [(u32, u32, u32, u32)],
    pub names: &'static [(u32, u32, u32, &'static str)],
}

/// An entry of a regular file.
pub fn entry(pino: u32, version: u32, ino: u32, name: &[u8]) -> Dirent<'_> {
    Dirent {
        pino,
        version,
        ino,
        mctime: 0,
        kind: 8,
        name: Part::new(name, 0),
    }
}

/// A version of an object whose bytes are all zeros, of owner 3 and group 4 and with the times 1
/// and 2.
pub fn object(ino: u32, version: u32, mode: u32, size: u32) -> InodeNode<'static> {
    InodeNode {
        ino,
        version,
        mode,
        uid: 3,
        gid: 4,
        isize: size,
        atime: 1,
        mtime: 2,
        ctime: 2,
        offset: 0,
        dsize: 0,
        fill: Fill::Data(Part::new(b"", 0)),
    }
}

/// Fills an image up to whole words.
pub fn fill_up(image: &mut Vec<u8>) -> Result<(), AllocError> {
    let missing = (4 - image.len() % 4) % 4;
    image.extend_from_slice(&[0xFF; 3][..missing])
}

/// The image of a tree.
pub fn image_of<E: Order>(alloc: Global, tree: Tree) -> Result<Vec<u8>, WriteFault> {
    let mut image = Vec::new(alloc);
    for &(ino, version, mode, size) in tree.objects {
        write_inode::<E>(&mut image, &object(ino, version, mode, size))?;
    }
    for &(pino, version, ino, name) in tree.names {
        write_entry::<E>(&mut image, &entry(pino, version, ino, name.as_bytes()))?;
        fill_up(&mut image).map_err(|_| WriteFault::OutOfMemory)?;
    }
    Ok(image)
}

pub const DIRECTORY: u32 = 0o040755;

pub const FILE: u32 = 0o100644;

pub const SYMLINK: u32 = 0o120777;

/// A node of version 1.
#[derive(Clone, Copy)]
pub enum Node<'a> {
    /// Number, mode, and all the bytes.
    Inode(u32, u32, &'a [u8]),
    /// The same, with an owner, a group and a time of change of its own.
    Owned(u32, u32, &'a [u8], u16, u16, u32),
    /// Number and size of a file that is one hole.
    Hole(u32, u32),
    /// Directory, number and name.
    Entry(u32, u32, &'a [u8]),
}

/// Whose an object is, and its times.
#[derive(Clone, Copy)]
pub struct Attributes {
    pub uid: u16,
    pub gid: u16,
    pub atime: u32,
    pub mtime: u32,
}

/// Version 1 of an object with these bytes.
fn inode(ino: u32, mode: u32, bytes: &[u8], attributes: Attributes) -> InodeNode<'_> {
    let size = u32::try_from(bytes.len()).unwrap_or(u32::MAX);
    InodeNode {
        ino,
        version: 1,
        mode,
        uid: attributes.uid,
        gid: attributes.gid,
        isize: size,
        atime: attributes.atime,
        mtime: attributes.mtime,
        ctime: 0,
        offset: 0,
        dsize: size,
        fill: Fill::Data(Part::new(bytes, 0)),
    }
}

fn write_node<E: Order>(
    image: &mut Vec<u8>,
    node: Node<'_>,
    attributes: Attributes,
) -> Result<(), WriteFault> {
    match node {
        Node::Inode(ino, mode, bytes) => {
            write_inode::<E>(image, &inode(ino, mode, bytes, attributes))
        }
        Node::Owned(ino, mode, bytes, uid, gid, mtime) => {
            let own = Attributes {
                uid,
                gid,
                mtime,
                ..attributes
            };
            write_inode::<E>(image, &inode(ino, mode, bytes, own))
        }
        Node::Hole(ino, isize) => {
            let hole = InodeNode {
                isize,
                ..inode(ino, FILE, b"", attributes)
            };
            write_inode::<E>(image, &hole)
        }
        Node::Entry(pino, ino, name) => write_entry::<E>(image, &entry(pino, 1, ino, name)),
    }
}

/// The image of these nodes, each filled up to whole words. What is not owned otherwise has these
/// attributes.
pub fn image_of_nodes<E: Order>(
    alloc: Global,
    nodes: &[Node<'_>],
    attributes: Attributes,
) -> Result<Vec<u8>, WriteFault> {
    let mut image = Vec::new(alloc);
    for node in nodes {
        write_node::<E>(&mut image, *node, attributes)?;
        fill_up(&mut image).map_err(|_| WriteFault::OutOfMemory)?;
    }
    Ok(image)
}
