//! Worked images, each node with its line.

use jnode::{
    CompressedNode, Dirent, Fill, InodeNode, Order, Part, write_compressed, write_entry,
    write_inode,
};
use std::alloc::Global;
use test_support::{DIRECTORY, FILE, fill_up};

/// A node of an image. An entry is of type 8 and of the time 7, an object of the owners 1000 and 100
/// and of the times 7, 8 and 9.
#[derive(Clone, Copy)]
pub(crate) enum Item {
    /// Directory, version, number and name.
    Entry(u32, u32, u32, &'static str),
    /// The same, of no number.
    Deleted(u32, u32, &'static str),
    /// Number, version, mode, size, offset and data.
    Inode(u32, u32, u32, u32, u32, &'static [u8]),
    /// Number, version, mode, size, offset and how many zeros.
    Zeros(u32, u32, u32, u32, u32, u32),
    /// Number and version of a file of eight bytes, and the data that zlib made of them.
    Packed(u32, u32, &'static [u8]),
    /// An entry of the root of a name and a number that is marked obsolete.
    Obsolete(u32, &'static str),
}

/// A node, and its line.
pub(crate) type Line = (Item, &'static str);

/// The lines of an image, and its last line.
pub(crate) type Case = (&'static [Line], &'static str);

/// What zlib makes of `abcdefgh`.
const WHOLE: &[u8] = b"\x78\xda\x4b\x4c\x4a\x4e\x49\x4d\x4b\xcf\x00\x00\x0e\x00\x03\x25";

/// Names: one that a newer entry replaced, one that was deleted, one whose object is missing, one
/// in a directory that is not there, one that stands twice, and one that was made anew.
const NAMES: [Line; 13] = [
    (
        Item::Entry(1, 1, 2, "a"),
        "00000000 superseded entry pino 1 version 1 ino 2 mctime 7 type 8 name a",
    ),
    (
        Item::Entry(1, 2, 3, "a"),
        "0000002c live entry pino 1 version 2 ino 3 mctime 7 type 8 name a",
    ),
    (
        Item::Inode(2, 1, FILE, 0, 0, b""),
        "00000058 deleted inode ino 2 version 1 mode 100644 uid 1000 gid 100 isize 0 atime 7 \
mtime 8 ctime 9 offset 0 dsize 0 compr 0",
    ),
    (
        Item::Inode(3, 1, FILE, 3, 0, b"abc"),
        "0000009c live inode ino 3 version 1 mode 100644 uid 1000 gid 100 isize 3 atime 7 \
mtime 8 ctime 9 offset 0 dsize 3 compr 0",
    ),
    (
        Item::Entry(1, 3, 4, "b"),
        "000000e4 deleted entry pino 1 version 3 ino 4 mctime 7 type 8 name b",
    ),
    (
        Item::Deleted(1, 4, "b"),
        "00000110 deletion entry pino 1 version 4 ino 0 mctime 7 type 8 name b",
    ),
    (
        Item::Entry(1, 5, 9, "c"),
        "0000013c unreached entry pino 1 version 5 ino 9 mctime 7 type 8 name c",
    ),
    (
        Item::Entry(8, 1, 3, "d"),
        "00000168 unreached entry pino 8 version 1 ino 3 mctime 7 type 8 name d",
    ),
    (
        Item::Entry(1, 6, 3, "e"),
        "00000194 superseded entry pino 1 version 6 ino 3 mctime 7 type 8 name e",
    ),
    (
        Item::Entry(1, 6, 3, "e"),
        "000001c0 live entry pino 1 version 6 ino 3 mctime 7 type 8 name e",
    ),
    (
        Item::Deleted(1, 7, "f"),
        "000001ec deletion entry pino 1 version 7 ino 0 mctime 7 type 8 name f",
    ),
    (
        Item::Entry(1, 8, 3, "f"),
        "00000218 live entry pino 1 version 8 ino 3 mctime 7 type 8 name f",
    ),
    (
        Item::Deleted(1, 9, " "),
        "00000244 deletion entry pino 1 version 9 ino 0 mctime 7 type 8 name \\x20",
    ),
];

/// Objects: a directory without a name and what is in it, directories that lie below themselves, and
/// a file whose first write a later one covers but for a byte, and whose zeros are past its end.
const OBJECTS: [Line; 11] = [
    (
        Item::Inode(5, 1, DIRECTORY, 0, 0, b""),
        "00000000 deleted inode ino 5 version 1 mode 40755 uid 1000 gid 100 isize 0 atime 7 \
mtime 8 ctime 9 offset 0 dsize 0 compr 0",
    ),
    (
        Item::Entry(5, 2, 6, "n"),
        "00000044 unreached entry pino 5 version 2 ino 6 mctime 7 type 8 name n",
    ),
    (
        Item::Inode(6, 1, FILE, 0, 0, b""),
        "00000070 unreached inode ino 6 version 1 mode 100644 uid 1000 gid 100 isize 0 atime 7 \
mtime 8 ctime 9 offset 0 dsize 0 compr 0",
    ),
    (
        Item::Inode(7, 1, DIRECTORY, 0, 0, b""),
        "000000b4 unreached inode ino 7 version 1 mode 40755 uid 1000 gid 100 isize 0 atime 7 \
mtime 8 ctime 9 offset 0 dsize 0 compr 0",
    ),
    (
        Item::Entry(7, 2, 7, "r"),
        "000000f8 unreached entry pino 7 version 2 ino 7 mctime 7 type 8 name r",
    ),
    (
        Item::Entry(1, 1, 8, "s"),
        "00000124 live entry pino 1 version 1 ino 8 mctime 7 type 8 name s",
    ),
    (
        Item::Inode(8, 1, FILE, 3, 0, b"abc"),
        "00000150 live inode ino 8 version 1 mode 100644 uid 1000 gid 100 isize 3 atime 7 \
mtime 8 ctime 9 offset 0 dsize 3 compr 0",
    ),
    (
        Item::Inode(8, 2, FILE, 3, 0, b"AB"),
        "00000198 superseded inode ino 8 version 2 mode 100644 uid 1000 gid 100 isize 3 atime 7 \
mtime 8 ctime 9 offset 0 dsize 2 compr 0",
    ),
    (
        Item::Zeros(8, 4, FILE, 3, 3, 9),
        "000001e0 live inode ino 8 version 4 mode 100644 uid 1000 gid 100 isize 3 atime 7 \
mtime 8 ctime 9 offset 3 dsize 9 compr 1",
    ),
    (
        Item::Inode(8, 3, FILE, 3, 0, b"XY"),
        "00000224 superseded inode ino 8 version 3 mode 100644 uid 1000 gid 100 isize 3 atime 7 \
mtime 8 ctime 9 offset 0 dsize 2 compr 0",
    ),
    (
        Item::Inode(8, 3, FILE, 3, 0, b"XY"),
        "0000026c live inode ino 8 version 3 mode 100644 uid 1000 gid 100 isize 3 atime 7 \
mtime 8 ctime 9 offset 0 dsize 2 compr 0",
    ),
];

/// Compressed data: those of a file that is read, those that newer ones cover, and those of a file
/// that is gone. And a node that is marked obsolete.
pub(crate) const PACKED: [Line; 5] = [
    (
        Item::Entry(1, 1, 2, "a"),
        "00000000 live entry pino 1 version 1 ino 2 mctime 7 type 8 name a",
    ),
    (
        Item::Packed(2, 1, WHOLE),
        "0000002c superseded inode ino 2 version 1 mode 100644 uid 1000 gid 100 isize 8 atime 7 \
mtime 8 ctime 9 offset 0 dsize 8 compr 6",
    ),
    (
        Item::Packed(2, 2, WHOLE),
        "00000080 live inode ino 2 version 2 mode 100644 uid 1000 gid 100 isize 8 atime 7 \
mtime 8 ctime 9 offset 0 dsize 8 compr 6",
    ),
    (
        Item::Packed(3, 1, WHOLE),
        "000000d4 deleted inode ino 3 version 1 mode 100644 uid 1000 gid 100 isize 8 atime 7 \
mtime 8 ctime 9 offset 0 dsize 8 compr 6",
    ),
    (Item::Obsolete(2, "b"), "00000128 obsolete length 44"),
];

pub(crate) const CASES: [Case; 4] = [
    (
        &[],
        "total live 0 superseded 0 deleted 0 deletion 0 unreached 0 obsolete 0\n",
    ),
    (
        &NAMES,
        "total live 4 superseded 2 deleted 2 deletion 3 unreached 2 obsolete 0\n",
    ),
    (
        &OBJECTS,
        "total live 4 superseded 2 deleted 1 deletion 0 unreached 4 obsolete 0\n",
    ),
    (
        &PACKED,
        "total live 2 superseded 1 deleted 1 deletion 0 unreached 0 obsolete 1\n",
    ),
];

/// Bounds of times, and the last line of the last image within them.
pub(crate) const TIMES: [(Option<u32>, Option<u32>, &str); 5] = [
    (
        Some(7),
        None,
        "\ntotal live 2 superseded 1 deleted 1 deletion 0 unreached 0 obsolete 0\n",
    ),
    (
        Some(8),
        None,
        "\ntotal live 1 superseded 1 deleted 1 deletion 0 unreached 0 obsolete 0\n",
    ),
    (
        None,
        Some(7),
        "\ntotal live 1 superseded 0 deleted 0 deletion 0 unreached 0 obsolete 0\n",
    ),
    (
        Some(8),
        Some(8),
        "\ntotal live 1 superseded 1 deleted 1 deletion 0 unreached 0 obsolete 0\n",
    ),
    (
        Some(9),
        Some(7),
        "total live 0 superseded 0 deleted 0 deletion 0 unreached 0 obsolete 0\n",
    ),
];

/// What is left of the objects 2, 3 and 4 of the last image; the digest is that of `sha256sum`.
pub(crate) const OF_OBJECTS: &str = "was ino 2 versions 1 to 2 size 8 sha256 \
9c56cc51b374c3ba189210d5b6d4bf57790d351c96c47c02190ecf1e430635ab\n\
was ino 3 versions 1 to 1 size 8 sha256 \
9c56cc51b374c3ba189210d5b6d4bf57790d351c96c47c02190ecf1e430635ab\n\
was ino 4\n";

/// What of the last image is told of the file 2.
pub(crate) const OF_FILE: &str =
    "00000000 live entry pino 1 version 1 ino 2 mctime 7 type 8 name a\n\
0000002c superseded inode ino 2 version 1 mode 100644 uid 1000 gid 100 isize 8 atime 7 \
mtime 8 ctime 9 offset 0 dsize 8 compr 6\n\
00000080 live inode ino 2 version 2 mode 100644 uid 1000 gid 100 isize 8 atime 7 \
mtime 8 ctime 9 offset 0 dsize 8 compr 6\n\
total live 2 superseded 1 deleted 0 deletion 0 unreached 0 obsolete 0\n";

fn entry_of(pino: u32, version: u32, ino: u32, name: &str) -> Dirent<'_> {
    Dirent {
        pino,
        version,
        ino,
        mctime: 7,
        kind: 8,
        name: Part::new(name.as_bytes(), 0),
    }
}

fn inode_of(ino: u32, version: u32, mode: u32, isize: u32) -> InodeNode<'static> {
    InodeNode {
        ino,
        version,
        mode,
        uid: 1000,
        gid: 100,
        isize,
        atime: 7,
        mtime: 8,
        ctime: 9,
        offset: 0,
        dsize: 0,
        fill: Fill::Zero,
    }
}

fn packed_of(ino: u32, version: u32, data: &[u8]) -> CompressedNode<'_> {
    CompressedNode {
        ino,
        version,
        mode: FILE,
        uid: 1000,
        gid: 100,
        isize: 8,
        atime: 7,
        mtime: 8,
        ctime: 9,
        offset: 0,
        dsize: 8,
        compr: 6,
        data: Part::new(data, 0),
    }
}

fn write_item<E: Order>(image: &mut Vec<u8>, item: Item) -> Result<(), &'static str> {
    let written = match item {
        Item::Entry(pino, version, ino, name) => {
            write_entry::<E>(image, &entry_of(pino, version, ino, name))
        }
        Item::Deleted(pino, version, name) => write_entry::<E>(
            image,
            &entry_of(pino, version, 0, name),
        ),
        Item::Inode(ino, version, mode, isize, offset, data) => {
            let node = InodeNode {
                offset,
                dsize: u32::try_from(data.len()).unwrap_or(0),
                fill: Fill::Data(Part::new(data, 0)),
                ..inode_of(ino, version, mode, isize)
            };
            write_inode::<E>(image, &node)
        }
        Item::Zeros(ino, version, mode, isize, offset, dsize) => {
            let node = InodeNode {
                offset,
                dsize,
                ..inode_of(ino, version, mode, isize)
            };
            write_inode::<E>(image, &node)
        }
        Item::Packed(ino, version, data) => {
            write_compressed::<E>(image, &packed_of(ino, version, data))
        }
        Item::Obsolete(ino, name) => write_entry::<E>(image, &entry_of(1, 1, ino, name)),
    };
    written.map_err(|_| "no node")
}

/// Marks the node at an address as obsolete: the bit ACCURATE of its type is cleared.
fn mark_obsolete<E: Order>(image: &mut [u8], addr: usize) -> Result<(), &'static str> {
    let place = if E::read_u16(&[0, 1]) == 1 { 2 } else { 3 };
    let node = image.get_mut(addr..).ok_or("no node there")?;
    let byte = node.get_mut(place).ok_or("no type there")?;
    *byte &= 0xDF;
    Ok(())
}

/// The image of the nodes of these lines.
pub(crate) fn image_of<E: Order>(alloc: Global, lines: &[Line]) -> Result<Vec<u8>, &'static str> {
    let mut image = Vec::new(alloc);
    for &(item, _) in lines {
        let addr = image.len();
        write_item::<E>(&mut image, item)?;
        if let Item::Obsolete(..) = item {
            mark_obsolete::<E>(&mut image, addr)?;
        }
        fill_up(&mut image).map_err(|_| "no memory")?;
    }
    Ok(image)
}

/// The text of these lines, with a last line.
pub(crate) fn text_of(alloc: Global, lines: &[Line], total: &str) -> Result<Vec<u8>, &'static str> {
    let mut text = Vec::new(alloc);
    for &(_, line) in lines {
        text.extend_from_slice(line.as_bytes())
            .map_err(|_| "no memory")?;
        text.push(b'\n').map_err(|_| "no memory")?;
    }
    text.extend_from_slice(total.as_bytes())
        .map_err(|_| "no memory")?;
    Ok(text)
}
