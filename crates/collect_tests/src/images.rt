//! How images are written down: items that are kept, and others.

use jnode::{
    CompressedNode, Fill, InodeNode, Order, Part, WriteFault, write_compressed, write_entry,
    write_inode, write_marker,
};
use std::alloc::{AllocError, Global};
use test_support::{FILE, entry, fill_up, object};

/// Compressed data: the number of their method, the data, and the bytes that they stand for.
#[derive(Clone, Copy)]
pub(crate) struct Stream(pub u8, pub &'static [u8], pub &'static [u8]);

/// What an image has, one item after the other, each filled up to whole words.
#[derive(Clone, Copy)]
pub(crate) enum Item {
    /// The clean marker of an erased block.
    Marker,
    /// An entry: its directory, its version, the number that it names, and the name.
    Entry(u32, u32, u32, &'static [u8]),
    /// A version: its number, its version, its mode, its size, and its data from an offset on.
    Data(u32, u32, u32, u32, u32, &'static [u8]),
    /// A version of a file of so many zeros: its number and its version.
    Zeros(u32, u32, u32),
    /// A version of a file: its number, its version, its size, and its bytes from an offset on,
    /// compressed.
    Packed(u32, u32, u32, u32, Stream),
    /// Bytes as they are.
    Raw(&'static [u8]),
}

/// An item of an image: one that matters, or one that does not.
#[derive(Clone, Copy)]
pub(crate) enum Row {
    Kept(Item),
    Dropped(Item),
    /// Bytes that are no node.
    Dirt(&'static [u8]),
}

/// The item of the same fields with its bytes as they are.
fn unpacked(item: Item) -> Item {
    match item {
        Item::Packed(ino, version, size, offset, Stream(_, _, content)) => {
            Item::Data(ino, version, FILE, size, offset, content)
        }
        other => other,
    }
}

/// A row of the item of the same fields with its bytes as they are.
fn unpacked_row(row: Row) -> Row {
    match row {
        Row::Kept(item) => Row::Kept(unpacked(item)),
        Row::Dropped(item) => Row::Dropped(unpacked(item)),
        Row::Dirt(bytes) => Row::Dirt(bytes),
    }
}

/// The same rows, with all bytes as they are.
pub(crate) fn unpacked_rows(alloc: Global, rows: &[Row]) -> Result<Vec<Row>, AllocError> {
    let mut plain = Vec::new(alloc);
    for row in rows {
        plain.push(unpacked_row(*row))?;
    }
    Ok(plain)
}

fn packed(
    ino: u32,
    version: u32,
    size: u32,
    offset: u32,
    stream: Stream,
) -> CompressedNode<'static> {
    let Stream(compr, data, content) = stream;
    CompressedNode {
        ino,
        version,
        mode: FILE,
        uid: 3,
        gid: 4,
        isize: size,
        atime: 1,
        mtime: 2,
        ctime: 2,
        offset,
        dsize: u32::try_from(content.len()).unwrap_or(u32::MAX),
        compr,
        data: Part::new(data, 0),
    }
}

fn append<E: Order>(image: &mut Vec<u8>, item: Item) -> Result<(), WriteFault> {
    match item {
        Item::Marker => write_marker::<E>(image)?,
        Item::Entry(pino, version, ino, name) => {
            write_entry::<E>(image, &entry(pino, version, ino, name))?;
        }
        Item::Data(ino, version, mode, size, offset, data) => {
            let node = InodeNode {
                offset,
                dsize: u32::try_from(data.len()).unwrap_or(u32::MAX),
                fill: Fill::Data(Part::new(data, 0)),
                ..object(ino, version, mode, size)
            };
            write_inode::<E>(image, &node)?;
        }
        Item::Zeros(ino, version, count) => {
            let node = InodeNode {
                dsize: count,
                fill: Fill::Zero,
                ..object(ino, version, 0o100644, count)
            };
            write_inode::<E>(image, &node)?;
        }
        Item::Packed(ino, version, size, offset, stream) => {
            write_compressed::<E>(image, &packed(ino, version, size, offset, stream))?;
        }
        Item::Raw(bytes) => image
            .extend_from_slice(bytes)
            .map_err(|_| WriteFault::OutOfMemory)?,
    }
    fill_up(image).map_err(|_| WriteFault::OutOfMemory)
}

/// The image of all rows.
pub(crate) fn image_of<E: Order>(alloc: Global, rows: &[Row]) -> Result<Vec<u8>, WriteFault> {
    let mut image = Vec::new(alloc);
    for row in rows {
        match *row {
            Row::Kept(item) | Row::Dropped(item) => append::<E>(&mut image, item)?,
            Row::Dirt(bytes) => append::<E>(&mut image, Item::Raw(bytes))?,
        }
    }
    Ok(image)
}

/// What is to go out for them, where one block holds it: a clean marker, and those that are kept.
pub(crate) fn compact_of<E: Order>(alloc: Global, rows: &[Row]) -> Result<Vec<u8>, WriteFault> {
    let mut image = Vec::new(alloc);
    for row in rows {
        if let Row::Kept(item) = *row {
            if image.is_empty() {
                append::<E>(&mut image, Item::Marker)?;
            }
            append::<E>(&mut image, item)?;
        }
    }
    Ok(image)
}

/// How many rows are kept, and how many nodes there are.
pub(crate) fn counts_of(rows: &[Row]) -> (usize, usize) {
    let kept = rows.iter().filter(|row| matches!(row, Row::Kept(_)));
    let nodes = rows.iter().filter(|row| !matches!(row, Row::Dirt(_)));
    (kept.count(), nodes.count())
}
