//! How images with compressed nodes are written down.

use jnode::{
    CompressedNode, Fill, InodeNode, Order, Part, WriteFault, marker_bytes, write_compressed,
    write_entry, write_inode, write_marker,
};
use jscan::Geometry;
use std::alloc::Global;
use test_support::{LITTLE_MARKER, entry, fill_up};

pub const GEOMETRY: Geometry = Geometry { block: 4096 };

pub const FILE: u32 = 0o100644;

pub const DIRECTORY: u32 = 0o040755;

/// The numbers of methods, and one that no method has.
pub const RTIME: u8 = 2;

pub const UNKNOWN: u8 = 5;

pub const ZLIB: u8 = 6;

pub const HELLO: &[u8] = b"hello, hello, hello\nhello, hello, hello\nhello, hello, hello\n";

/// Python's `zlib` made these of it, and of twenty `a` and of twenty `b`.
pub const ZLIB_HELLO: &[u8] = b"\x78\xda\xcb\x48\xcd\xc9\xc9\xd7\x51\xc8\x40\xa2\xb8\x32\x88\x14\
    \x03\x00\x7d\x3b\x14\x9b";

pub const ZLIB_A: &[u8] = b"\x78\xda\x4b\x4c\xc4\x04\x00\x4f\xa6\x07\x95";

pub const ZLIB_B: &[u8] = b"\x78\xda\x4b\x4a\xc2\x04\x00\x50\x78\x07\xa9";

/// The stream of twenty `a` with a wrong checksum.
pub const ZLIB_BROKEN: &[u8] = b"\x78\xda\x4b\x4c\xc4\x04\x00\x4f\xa6\x07\x96";

/// Twenty `a`: the byte, and that 19 bytes from there on are repeated.
pub const RTIME_A: &[u8] = b"a\x13";

/// Headers of unknown types, in little and in big order: with the first no image may be written,
/// and with the second none mounts.
pub const READ_ONLY: Item = Item::Raw(
    b"\x85\x19\xf7\xa0\x0c\x00\x00\x00\x2c\x5b\xfb\xdb",
    b"\x19\x85\xa0\xf7\x00\x00\x00\x0c\x53\x64\x3e\xdd",
);

pub const INCOMPATIBLE: Item = Item::Raw(
    b"\x85\x19\xf7\xe0\x0c\x00\x00\x00\x65\x03\x08\x83",
    b"\x19\x85\xe0\xf7\x00\x00\x00\x0c\x5c\x3c\x34\xb1",
);

/// The header of an extended attribute.
pub const ATTRIBUTE: Item = Item::Raw(
    b"\x85\x19\x08\xe0\x0c\x00\x00\x00\xa9\xa8\xcc\x67",
    b"\x19\x85\xe0\x08\x00\x00\x00\x0c\x96\x58\xf3\x3d",
);

/// A version of an object: its number, its version, its mode and its size. It has the owners 1000
/// and 100 and the times 7, 8 and 9.
#[derive(Clone, Copy)]
pub struct Version(pub u32, pub u32, pub u32, pub u32);

/// What an image has, one item after the other, each filled up to whole words.
#[derive(Clone, Copy)]
pub enum Item {
    /// The clean marker of an erased block.
    Marker,
    /// An entry: its directory, its version, the number that it names, and the name.
    Entry(u32, u32, u32, &'static [u8]),
    /// A version, and its bytes from an offset on, as they are.
    Plain(Version, u32, &'static [u8]),
    /// A version, the offset and the count of its bytes, and their method and data.
    Packed(Version, u32, u32, u8, &'static [u8]),
    /// Bytes as they are, in little and in big order.
    Raw(&'static [u8], &'static [u8]),
}

/// The image of these items.
pub fn image_of<E: Order>(alloc: Global, items: &[Item]) -> Result<Vec<u8>, WriteFault> {
    let mut image = Vec::new(alloc);
    for &item in items {
        append::<E>(&mut image, item)?;
        fill_up(&mut image).map_err(|_| WriteFault::OutOfMemory)?;
    }
    Ok(image)
}

fn append<E: Order>(image: &mut Vec<u8>, item: Item) -> Result<(), WriteFault> {
    match item {
        Item::Marker => write_marker::<E>(image),
        Item::Entry(pino, version, ino, name) => {
            write_entry::<E>(image, &entry(pino, version, ino, name))
        }
        Item::Plain(version, offset, bytes) => {
            write_inode::<E>(image, &plain(version, offset, bytes))
        }
        Item::Packed(version, offset, dsize, compr, data) => {
            write_compressed::<E>(image, &packed(version, offset, dsize, compr, data))
        }
        Item::Raw(little, big) => {
            let is_little = marker_bytes::<E>() == LITTLE_MARKER;
            let bytes = if is_little { little } else { big };
            image
                .extend_from_slice(bytes)
                .map_err(|_| WriteFault::OutOfMemory)
        }
    }
}

fn plain(
    Version(ino, version, mode, isize): Version,
    offset: u32,
    bytes: &'static [u8],
) -> InodeNode<'static> {
    InodeNode {
        ino,
        version,
        mode,
        uid: 1000,
        gid: 100,
        isize,
        atime: 7,
        mtime: 8,
        ctime: 9,
        offset,
        dsize: u32::try_from(bytes.len()).unwrap_or(u32::MAX),
        fill: Fill::Data(Part::new(bytes, 0)),
    }
}

fn packed(
    Version(ino, version, mode, isize): Version,
    offset: u32,
    dsize: u32,
    compr: u8,
    data: &'static [u8],
) -> CompressedNode<'static> {
    CompressedNode {
        ino,
        version,
        mode,
        uid: 1000,
        gid: 100,
        isize,
        atime: 7,
        mtime: 8,
        ctime: 9,
        offset,
        dsize,
        compr,
        data: Part::new(data, 0),
    }
}
