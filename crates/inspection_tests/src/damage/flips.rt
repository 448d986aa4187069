//! An image of which bytes are flipped, with the lines on it.

use crate::checks::{equal, expect_at};
use byteorder::{ByteOrder, LittleEndian};
use flashbase::{Part, Sink, crc};
use jdamage::{Totals, put_damage};
use jmount::mount;
use jnode::{Dirent, Fill, InodeNode, WriteFault, write_entry, write_inode};
use jscan::Geometry;
use std::alloc::Global;
use std::test::Fail;
use test_support::{DIRECTORY, FILE, Taker, fill_up};

pub(crate) const GEOMETRY: Geometry = Geometry { block: 4096 };

#[derive(Clone, Copy)]
pub(crate) enum Node {
    /// Number, version, mode, size of the object, offset, and data.
    Inode(u32, u32, u32, u32, u32, &'static [u8]),
    /// Directory, version, number and name.
    Entry(u32, u32, u32, &'static [u8]),
}

/// Each with its address.
const NODES: [Node; 11] = [
    Node::Inode(2, 1, FILE, 3, 0, b"abc"), // 0
    Node::Inode(2, 2, FILE, 5, 3, b"de"), // 72
    Node::Entry(1, 1, 2, b"a"), // 144
    Node::Inode(3, 1, DIRECTORY, 0, 0, b""), // 188
    Node::Entry(1, 2, 3, b"d"), // 256
    Node::Entry(3, 1, 2, b"b c"), // 300
    Node::Entry(3, 2, 9, b"gone"), // 344
    Node::Inode(4, 6, FILE, 7, 5, b"hi"), // 388
    Node::Entry(7, 11, 8, b"x y"), // 460
    Node::Inode(2, 3, FILE, 5, 0, b"ABC"), // 504
    Node::Inode(1, 5, DIRECTORY, 1, 0, b"r"), // 576
];

fn nodes() -> &'static [Node] {
    &NODES
}

fn write_node(image: &mut Vec<u8>, node: Node) -> Result<(), WriteFault> {
    match node {
        Node::Inode(ino, version, mode, isize, offset, data) => write_inode::<LittleEndian>(
            image,
            &InodeNode {
                ino,
                version,
                mode,
                uid: 0,
                gid: 0,
                isize,
                atime: 0,
                mtime: 0,
                ctime: 0,
                offset,
                dsize: u32::try_from(data.len()).unwrap_or(u32::MAX),
                fill: Fill::Data(Part::new(data, 0)),
            },
        ),
        Node::Entry(pino, version, ino, name) => write_entry::<LittleEndian>(
            image,
            &Dirent {
                pino,
                version,
                ino,
                mctime: 0,
                kind: 0,
                name: Part::new(name, 0),
            },
        ),
    }
}

/// An image of these nodes, with a bit flipped in the byte at each of these places.
pub(crate) fn flipped_of(
    alloc: Global,
    nodes: &[Node],
    places: &[usize],
) -> Result<Vec<u8>, &'static str> {
    let mut image = Vec::new(alloc);
    for node in nodes {
        write_node(&mut image, *node).map_err(|_| "no node")?;
        fill_up(&mut image).map_err(|_| "no memory")?;
    }
    for place in places {
        let byte = image.get_mut(*place).ok_or("no such place")?;
        *byte ^= 1;
    }
    Ok(image)
}

/// The image, with a bit flipped in the byte at each of these places.
pub(crate) fn flipped(alloc: Global, places: &[usize]) -> Result<Vec<u8>, &'static str> {
    flipped_of(alloc, nodes(), places)
}

/// Puts what its damage costs, and answers the totals, or nothing where the sink failed.
pub(crate) fn put<T: Sink>(
    alloc: Global,
    image: &[u8],
    sink: &mut T,
) -> Result<Option<Totals>, &'static str> {
    let mounted = mount::<LittleEndian>(alloc, image, GEOMETRY).map_err(|_| "no mount")?;
    match put_damage::<LittleEndian, T>(alloc, &mounted, GEOMETRY, sink) {
        Ok(totals) => Ok(Some(totals)),
        Err(_) => Ok(None),
    }
}

/// The places that are flipped, the lines, and the totals.
pub(crate) type Row = (&'static [usize], &'static str, (usize, u64, usize, usize));

pub(crate) fn totals((damaged, paths, missing, gaps): (usize, u64, usize, usize)) -> Totals {
    Totals {
        damaged,
        paths,
        missing,
        gaps,
    }
}

const OLDER: &str = "00000000 data-crc ino 2 version 1 bytes 0 to 3 hides nothing\n\
missing /d/gone ino 9\n\
missing pino 7 name x\\x20y ino 8\n\
total damaged 1 paths 0 missing 2 gaps 0\n";

const TWO_PATHS: &str = "00000048 data-crc ino 2 version 2 bytes 3 to 5 hides /a\n\
00000048 data-crc ino 2 version 2 bytes 3 to 5 hides /d/b\\x20c\n\
00000240 data-crc ino 1 version 5 bytes 0 to 1 hides /\n\
missing /d/gone ino 9\n\
missing pino 7 name x\\x20y ino 8\n\
gap ino 2 bytes 3 to 5 in /a\n\
gap ino 2 bytes 3 to 5 in /d/b\\x20c\n\
total damaged 2 paths 3 missing 2 gaps 1\n";

const NO_PATH: &str = "00000184 data-crc ino 4 version 6 bytes 5 to 7 has no path\n\
000001f8 data-crc ino 2 version 3 bytes 0 to 3 hides /a\n\
000001f8 data-crc ino 2 version 3 bytes 0 to 3 hides /d/b\\x20c\n\
missing /d/gone ino 9\n\
missing pino 7 name x\\x20y ino 8\n\
total damaged 2 paths 2 missing 2 gaps 0\n";

const NAMES: &str = "0000012c name-crc pino 3 version 1 ino 2 lost in /d\n\
000001cc name-crc pino 7 version 11 ino 8 lost\n\
missing /d/gone ino 9\n\
total damaged 2 paths 0 missing 1 gaps 0\n";

const DIRECTORY_GONE: &str = "000000bc node-crc unknown\n\
missing /d ino 3\n\
missing pino 3 name gone ino 9\n\
missing pino 7 name x\\x20y ino 8\n\
total damaged 1 paths 0 missing 3 gaps 0\n";

const NONE: &str = "missing /d/gone ino 9\n\
missing pino 7 name x\\x20y ino 8\n\
total damaged 0 paths 0 missing 2 gaps 0\n";

const ROWS: [Row; 6] = [
    (&[], NONE, (0, 0, 2, 0)),
    (&[68], OLDER, (1, 0, 2, 0)),
    (&[140, 644], TWO_PATHS, (2, 3, 2, 1)),
    (&[456, 572], NO_PATH, (2, 2, 2, 0)),
    (&[340, 500], NAMES, (2, 0, 1, 0)),
    (&[208], DIRECTORY_GONE, (1, 0, 3, 0)),
];

pub(crate) fn rows() -> &'static [Row] {
    &ROWS
}

#[test]
fn worked_damage(rt: HostRuntime) -> Result<(), Fail> {
    for &(places, text, wanted) in rows() {
        let image = flipped(rt.alloc(), places)?;
        let mut sink = Taker::new(rt.alloc());
        let found = put(rt.alloc(), &image, &mut sink)?;
        equal(&rt, sink.bytes.as_slice(), text.as_bytes());
        equal(&rt, found, Some(totals(wanted)));
    }
    Ok(())
}

/// Sets the number at a place.
fn set(image: &mut Vec<u8>, place: usize, value: u32) -> Result<(), &'static str> {
    let mut bytes = [0; 4];
    LittleEndian::write_u32(&mut bytes, value);
    let mut at = place;
    for byte in bytes {
        *image.get_mut(at).ok_or("no such place")? = byte;
        at = at.saturating_add(1);
    }
    Ok(())
}

/// The image, where the node at 388 has this number at a place, and the checksum of it.
fn altered(alloc: Global, place: usize, value: u32) -> Result<Vec<u8>, &'static str> {
    let mut image = flipped(alloc, &[])?;
    set(&mut image, place, value)?;
    let sum = crc(image.get(388..448).ok_or("no front")?);
    set(&mut image, 452, sum)?;
    Ok(image)
}

const RANGE: &str = "00000184 range unknown\n\
missing /d/gone ino 9\n\
missing pino 7 name x\\x20y ino 8\n\
total damaged 1 paths 0 missing 2 gaps 0\n";

const LENGTH: &str = "00000184 length unknown\n\
missing /d/gone ino 9\n\
missing pino 7 name x\\x20y ino 8\n\
total damaged 1 paths 0 missing 2 gaps 0\n";

/// A node of the object 0, and one that has another length than it says: node_crc is right.
#[test]
fn other_damage(rt: HostRuntime) -> Result<(), Fail> {
    for (place, value, text) in [(400, 0, RANGE), (436, 200, LENGTH)] {
        let image = altered(rt.alloc(), place, value)?;
        let mut sink = Taker::new(rt.alloc());
        let found = put(rt.alloc(), &image, &mut sink)?;
        equal(&rt, sink.bytes.as_slice(), text.as_bytes());
        equal(&rt, found, Some(totals((1, 0, 2, 0))));
    }
    Ok(())
}

/// Each has taken a beginning of the lines.
#[test]
fn sinks_that_fail(rt: HostRuntime) -> Result<(), Fail> {
    let image = flipped(rt.alloc(), &[140, 644])?;
    for limit in [0, 1, 8, 9, 60, 100, 168] {
        let mut sink = Taker::limited(rt.alloc(), 7, limit);
        let found = put(rt.alloc(), &image, &mut sink)?;
        let wanted = TWO_PATHS.as_bytes().get(..limit).ok_or("short")?;
        expect_at(&rt, found.is_none() && sink.took(1, wanted), limit);
    }
    Ok(())
}

/// Two directories that lie in one another, with a file that has two nodes.
const RING: [Node; 7] = [
    Node::Inode(2, 1, DIRECTORY, 0, 0, b""), // 0
    Node::Entry(3, 1, 2, b"up"), // 68
    Node::Inode(3, 1, DIRECTORY, 0, 0, b""), // 112
    Node::Entry(2, 1, 3, b"down"), // 180
    Node::Entry(2, 2, 4, b"file"), // 224
    Node::Inode(4, 1, FILE, 1, 0, b"x"), // 268
    Node::Inode(4, 2, FILE, 1, 0, b"y"), // 340
];

const OLDER_IN_RING: &str = "0000010c data-crc ino 4 version 1 bytes 0 to 1 hides nothing\n\
total damaged 1 paths 0 missing 0 gaps 0\n";

const NEWER_IN_RING: &str = "00000154 data-crc ino 4 version 2 bytes 0 to 1 has no path\n\
total damaged 1 paths 0 missing 0 gaps 0\n";

const BOTH_IN_RING: &str = "0000010c data-crc ino 4 version 1 bytes 0 to 1 has no path\n\
00000154 data-crc ino 4 version 2 bytes 0 to 1 has no path\n\
missing pino 2 name file ino 4\n\
total damaged 2 paths 0 missing 1 gaps 0\n";

#[test]
fn directories_in_one_another(rt: HostRuntime) -> Result<(), Fail> {
    let rows: [Row; 3] = [
        (&[336], OLDER_IN_RING, (1, 0, 0, 0)),
        (&[408], NEWER_IN_RING, (1, 0, 0, 0)),
        (&[336, 408], BOTH_IN_RING, (2, 0, 1, 0)),
    ];
    for (places, text, wanted) in rows {
        let image = flipped_of(rt.alloc(), &RING, places)?;
        let mut sink = Taker::new(rt.alloc());
        let found = put(rt.alloc(), &image, &mut sink)?;
        equal(&rt, sink.bytes.as_slice(), text.as_bytes());
        equal(&rt, found, Some(totals(wanted)));
    }
    Ok(())
}

/// One file, of which versions are lost that others give in front of, beside and behind.
pub(crate) const MANY: [Node; 7] = [
    Node::Entry(1, 1, 2, b"a"), // 0
    Node::Inode(2, 4, FILE, 8, 0, b"aaaa"), // 44
    Node::Inode(2, 2, FILE, 8, 2, b"bbbb"), // 116
    Node::Inode(2, 6, FILE, 8, 4, b"cccc"), // 188
    Node::Inode(2, 5, FILE, 8, 2, b"dddd"), // 260
    Node::Inode(2, 7, FILE, 8, 0, b"eeee"), // 332
    Node::Inode(2, 3, FILE, 8, 0, b"ffff"), // 404
];

const MANY_LOST: &str = "00000074 data-crc ino 2 version 2 bytes 2 to 6 hides nothing\n\
00000104 data-crc ino 2 version 5 bytes 2 to 6 hides /a\n\
0000014c data-crc ino 2 version 7 bytes 0 to 4 hides /a\n\
00000194 data-crc ino 2 version 3 bytes 0 to 4 hides nothing\n\
total damaged 4 paths 2 missing 0 gaps 0\n";

const NOTHING_LOST: &str = "total damaged 0 paths 0 missing 0 gaps 0\n";

#[test]
fn many_of_one_file(rt: HostRuntime) -> Result<(), Fail> {
    let rows: [Row; 2] = [
        (&[184, 328, 400, 472], MANY_LOST, (4, 2, 0, 0)),
        (&[], NOTHING_LOST, (0, 0, 0, 0)),
    ];
    for (places, text, wanted) in rows {
        let image = flipped_of(rt.alloc(), &MANY, places)?;
        let mut sink = Taker::new(rt.alloc());
        let found = put(rt.alloc(), &image, &mut sink)?;
        equal(&rt, sink.bytes.as_slice(), text.as_bytes());
        equal(&rt, found, Some(totals(wanted)));
    }
    Ok(())
}
