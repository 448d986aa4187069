//! Worked images, and what their objects were.

use jnode::{
    CompressedNode, Dirent, Fill, InodeNode, Order, Part, write_compressed, write_entry,
    write_inode,
};
use jthrough::ViewFault;
use jversions::RevisionFault;
use std::alloc::Global;
use test_support::{DIRECTORY, FILE, SYMLINK, fill_up};

/// A node of an image.
#[derive(Clone, Copy)]
pub(crate) enum Item {
    /// Version and number of the name `a` of the root.
    Entry(u32, u32),
    /// Directory, version, number and name.
    Named(u32, u32, u32, &'static [u8]),
    /// Number, version, mode, size, offset and data.
    Inode(u32, u32, u32, u32, u32, &'static [u8]),
    /// Number, version, size, offset and how many zeros of a file.
    Zeros(u32, u32, u32, u32, u32),
    /// Number, version, the number of a method, and the data of a file of eight bytes.
    Packed(u32, u32, u8, &'static [u8]),
    /// Number, version and data of a file, marked obsolete.
    Obsolete(u32, u32, &'static [u8]),
}

/// Number, version, and what is put or why nothing is.
pub(crate) type Case = (u32, u32, Result<&'static [u8], RevisionFault>);

/// What zlib makes of `abcdefgh`.
const WHOLE: &[u8] = b"\x78\xda\x4b\x4c\x4a\x4e\x49\x4d\x4b\xcf\x00\x00\x0e\x00\x03\x25";

/// A file that was written, written over, cut, written far behind, and written whole; its name is
/// deleted. Version 5 comes before version 4. One node has the version for a number and the number
/// for a version.
pub(crate) const WRITTEN: [Item; 9] = [
    Item::Inode(5, 1, FILE, 4, 0, b"abcd"),
    Item::Entry(1, 5),
    Item::Inode(5, 2, FILE, 6, 2, b"XY"),
    Item::Inode(2, 5, FILE, 1, 0, b"s"),
    Item::Inode(5, 3, FILE, 3, 0, b""),
    Item::Packed(5, 5, 6, WHOLE),
    Item::Inode(5, 4, FILE, 9, 8, b"!"),
    Item::Entry(2, 0),
    Item::Obsolete(5, 6, b"gone"),
];

pub(crate) const OF_WRITTEN: [Case; 9] = [
    (5, 0, Err(RevisionFault::NoNode)),
    (5, 1, Ok(b"abcd")),
    (5, 2, Ok(b"abXY\0\0")),
    (5, 3, Ok(b"abX")),
    (5, 4, Ok(b"abXY\0\0\0\0!")),
    (5, 5, Ok(b"abcdefgh")),
    (5, u32::MAX, Ok(b"abcdefgh")),
    (2, 5, Ok(b"s")),
    (2, 4, Err(RevisionFault::NoNode)),
];

/// Objects of each kind: a symlink; a directory; a file that became a directory; zeros over bytes;
/// and no node of the root.
pub(crate) const KINDS: [Item; 6] = [
    Item::Inode(6, 1, SYMLINK, 3, 0, b"way"),
    Item::Inode(7, 1, DIRECTORY, 0, 0, b""),
    Item::Inode(8, 1, FILE, 1, 0, b"f"),
    Item::Inode(8, 2, DIRECTORY, 1, 0, b""),
    Item::Inode(9, 1, FILE, 4, 0, b"1234"),
    Item::Zeros(9, 2, 4, 1, 2),
];

pub(crate) const OF_KINDS: [Case; 8] = [
    (6, 1, Ok(b"way")),
    (7, 1, Err(RevisionFault::NoContent)),
    (8, 1, Ok(b"f")),
    (8, 2, Err(RevisionFault::NoContent)),
    (9, 1, Ok(b"1234")),
    (9, 2, Ok(b"1\0\04")),
    (1, 1, Err(RevisionFault::NoContent)),
    (3, 1, Err(RevisionFault::NoNode)),
];

/// Nodes that are refused, but of no revision below them: two that clash, one of a method that is
/// not read, one whose data are junk, and a root that becomes a file.
pub(crate) const REFUSED: [Item; 9] = [
    Item::Inode(3, 1, FILE, 2, 0, b"ok"),
    Item::Inode(3, 2, FILE, 1, 0, b"p"),
    Item::Inode(3, 2, FILE, 1, 0, b"q"),
    Item::Inode(4, 1, FILE, 1, 0, b"z"),
    Item::Packed(4, 3, 5, b"data"),
    Item::Packed(4, 2, 6, b"junk"),
    Item::Inode(1, 1, DIRECTORY, 0, 0, b""),
    Item::Inode(1, 2, FILE, 1, 0, b"r"),
    Item::Packed(10, 1, 6, WHOLE),
];

pub(crate) const OF_REFUSED: [Case; 8] = [
    (3, 1, Ok(b"ok")),
    (
        3,
        2,
        Err(RevisionFault::Refused(ViewFault::Clash { addr: 0x90 })),
    ),
    (4, 1, Ok(b"z")),
    (
        4,
        2,
        Err(RevisionFault::Refused(ViewFault::Data { addr: 0x168 })),
    ),
    (
        4,
        3,
        Err(RevisionFault::Refused(ViewFault::Compressed {
            addr: 0x120,
            compr: 5,
        })),
    ),
    (1, 1, Err(RevisionFault::NoContent)),
    (1, 2, Err(RevisionFault::Refused(ViewFault::RootKind))),
    (10, 1, Ok(b"abcdefgh")),
];

pub(crate) const IMAGES: [(&[Item], &[Case]); 3] = [
    (&WRITTEN, &OF_WRITTEN),
    (&KINDS, &OF_KINDS),
    (&REFUSED, &OF_REFUSED),
];

pub(crate) fn entry_of(pino: u32, version: u32, ino: u32, name: &[u8]) -> Dirent<'_> {
    Dirent {
        pino,
        version,
        ino,
        mctime: 7,
        kind: 8,
        name: Part::new(name, 0),
    }
}

fn inode_of(ino: u32, version: u32, mode: u32, isize: u32) -> InodeNode<'static> {
    InodeNode {
        ino,
        version,
        mode,
        uid: 1000,
        gid: 100,
        isize,
        atime: 7,
        mtime: 8,
        ctime: 9,
        offset: 0,
        dsize: 0,
        fill: Fill::Zero,
    }
}

fn filled(
    ino: u32,
    version: u32,
    mode: u32,
    isize: u32,
    offset: u32,
    data: &[u8],
) -> InodeNode<'_> {
    InodeNode {
        offset,
        dsize: u32::try_from(data.len()).unwrap_or(0),
        fill: Fill::Data(Part::new(data, 0)),
        ..inode_of(ino, version, mode, isize)
    }
}

fn packed_of(ino: u32, version: u32, compr: u8, data: &[u8]) -> CompressedNode<'_> {
    CompressedNode {
        ino,
        version,
        mode: FILE,
        uid: 1000,
        gid: 100,
        isize: 8,
        atime: 7,
        mtime: 8,
        ctime: 9,
        offset: 0,
        dsize: 8,
        compr,
        data: Part::new(data, 0),
    }
}

/// Appends the node of a file of one byte.
pub(crate) fn write_file<E: Order>(image: &mut Vec<u8>, ino: u32) -> Result<(), &'static str> {
    write_item::<E>(image, Item::Inode(ino, 1, FILE, 1, 0, b"f"))?;
    fill_up(image).map_err(|_| "no memory")
}

fn write_item<E: Order>(image: &mut Vec<u8>, item: Item) -> Result<(), &'static str> {
    let written = match item {
        Item::Entry(version, ino) => write_entry::<E>(image, &entry_of(1, version, ino, b"a")),
        Item::Named(pino, version, ino, name) => {
            write_entry::<E>(image, &entry_of(pino, version, ino, name))
        }
        Item::Inode(ino, version, mode, isize, offset, data) => {
            write_inode::<E>(image, &filled(ino, version, mode, isize, offset, data))
        }
        Item::Zeros(ino, version, isize, offset, dsize) => {
            let node = InodeNode {
                offset,
                dsize,
                ..inode_of(ino, version, FILE, isize)
            };
            write_inode::<E>(image, &node)
        }
        Item::Packed(ino, version, compr, data) => {
            write_compressed::<E>(image, &packed_of(ino, version, compr, data))
        }
        Item::Obsolete(ino, version, data) => {
            write_inode::<E>(image, &filled(ino, version, FILE, 4, 0, data))
        }
    };
    written.map_err(|_| "no node")
}

/// Marks the node at an address as obsolete: the bit ACCURATE of its type is cleared.
fn mark_obsolete<E: Order>(image: &mut [u8], addr: usize) -> Result<(), &'static str> {
    let place = if E::read_u16(&[0, 1]) == 1 { 2 } else { 3 };
    let node = image.get_mut(addr..).ok_or("no node there")?;
    let byte = node.get_mut(place).ok_or("no type there")?;
    *byte &= 0xDF;
    Ok(())
}

/// The image of these nodes.
pub(crate) fn image_of<E: Order>(alloc: Global, items: &[Item]) -> Result<Vec<u8>, &'static str> {
    let mut image = Vec::new(alloc);
    for &item in items {
        let addr = image.len();
        write_item::<E>(&mut image, item)?;
        if let Item::Obsolete(..) = item {
            mark_obsolete::<E>(&mut image, addr)?;
        }
        fill_up(&mut image).map_err(|_| "no memory")?;
    }
    Ok(image)
}
