//! How worked images are written down.

use jnode::{Fill, InodeNode, Order, Part, WriteFault, write_entry, write_inode, write_marker};
use std::alloc::Global;
use test_support::{entry, fill_up};

pub const FILE: u32 = 0o100644;

pub const DIRECTORY: u32 = 0o040755;

pub const CHARACTER: u32 = 0o020600;

pub const BLOCK: u32 = 0o060600;

/// A version of an object: its number, its version, its mode and its size. It has the owners 1000
/// and 100 and the times 7, 8 and 9.
#[derive(Clone, Copy)]
pub struct Version(pub u32, pub u32, pub u32, pub u32);

/// What an image has, one item after the other, each filled up to whole words.
#[derive(Clone, Copy)]
pub enum Item {
    /// The clean marker of an erased block.
    Marker,
    /// An entry: its directory, its version, the number that it names, and the name.
    Entry(u32, u32, u32, &'static [u8]),
    /// A version, and its data from an offset on.
    Data(Version, u32, &'static [u8]),
    /// A version, and so many zeros from an offset on.
    Zeros(Version, u32, u32),
    /// Bytes as they are.
    Raw(&'static [u8]),
    /// So many bytes of one value.
    Run(usize, u8),
    /// Nothing more, but another byte at an address.
    Turned(usize, u8),
}

/// The image of these items.
pub fn image_of<E: Order>(alloc: Global, items: &[Item]) -> Result<Vec<u8>, WriteFault> {
    let mut image = Vec::new(alloc);
    for &item in items {
        append::<E>(&mut image, item)?;
        fill_up(&mut image).map_err(|_| WriteFault::OutOfMemory)?;
    }
    Ok(image)
}

fn append<E: Order>(image: &mut Vec<u8>, item: Item) -> Result<(), WriteFault> {
    match item {
        Item::Marker => write_marker::<E>(image),
        Item::Entry(pino, version, ino, name) => {
            write_entry::<E>(image, &entry(pino, version, ino, name))
        }
        Item::Data(version, offset, data) => {
            let dsize = u32::try_from(data.len()).unwrap_or(u32::MAX);
            let fill = Fill::Data(Part::new(data, 0));
            write_inode::<E>(image, &inode(version, offset, dsize, fill))
        }
        Item::Zeros(version, offset, count) => {
            write_inode::<E>(image, &inode(version, offset, count, Fill::Zero))
        }
        Item::Raw(bytes) => append_raw(image, bytes),
        Item::Run(count, byte) => append_run(image, count, byte),
        Item::Turned(at, byte) => turn(image, at, byte),
    }
}

fn inode(
    Version(ino, version, mode, isize): Version,
    offset: u32,
    dsize: u32,
    fill: Fill<'static>,
) -> InodeNode<'static> {
    InodeNode {
        ino,
        version,
        mode,
        uid: 1000,
        gid: 100,
        isize,
        atime: 7,
        mtime: 8,
        ctime: 9,
        offset,
        dsize,
        fill,
    }
}

fn append_raw(image: &mut Vec<u8>, bytes: &[u8]) -> Result<(), WriteFault> {
    image
        .extend_from_slice(bytes)
        .map_err(|_| WriteFault::OutOfMemory)
}

fn append_run(image: &mut Vec<u8>, count: usize, byte: u8) -> Result<(), WriteFault> {
    for _ in 0..count {
        image.push(byte).map_err(|_| WriteFault::OutOfMemory)?;
    }
    Ok(())
}

fn turn(image: &mut Vec<u8>, at: usize, byte: u8) -> Result<(), WriteFault> {
    if let Some(there) = image.get_mut(at) {
        *there = byte;
    }
    Ok(())
}
