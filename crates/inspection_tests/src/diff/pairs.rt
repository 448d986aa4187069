//! Pairs of trees, with the lines on them.

use crate::checks::{equal, expect_at};
use byteorder::{BigEndian, LittleEndian};
use flashbase::Sink;
use jdiff::{Comparing, put_differences};
use jmount::mount;
use jnode::{Endian, Order};
use jscan::Geometry;
use std::alloc::Global;
use std::test::Fail;
use test_support::{Attributes, DIRECTORY, FILE, Node, SYMLINK, Taker, image_of_nodes};

/// A block with room for a file of two pieces.
pub(crate) const GEOMETRY: Geometry = Geometry { block: 16384 };

/// Of an object that is not owned otherwise.
const PLAIN: Attributes = Attributes {
    uid: 0,
    gid: 0,
    atime: 0,
    mtime: 0,
};

/// An image of these nodes.
pub(crate) fn image_of(alloc: Global, nodes: &[Node<'_>]) -> Result<Vec<u8>, &'static str> {
    image_of_nodes::<LittleEndian>(alloc, nodes, PLAIN).map_err(|_| "no image")
}

/// An image of a file with these bytes.
fn image_of_file(alloc: Global, bytes: &[u8]) -> Result<Vec<u8>, &'static str> {
    image_of(
        alloc,
        &[Node::Inode(2, FILE, bytes), Node::Entry(1, 2, b"f")],
    )
}

/// Puts the lines on two images, and answers how many, or nothing where the sink failed.
fn put_in<E: Order, T: Sink>(
    alloc: Global,
    left: &[u8],
    right: &[u8],
    how: Comparing,
    sink: &mut T,
) -> Result<Option<u64>, &'static str> {
    let one = mount::<E>(alloc, left, GEOMETRY).map_err(|_| "no mount")?;
    let other = mount::<E>(alloc, right, GEOMETRY).map_err(|_| "no mount")?;
    match put_differences(alloc, &one, &other, how, sink) {
        Ok(count) => Ok(Some(count)),
        Err(_) => Ok(None),
    }
}

/// The same of two little-endian images.
fn put<T: Sink>(
    alloc: Global,
    left: &[u8],
    right: &[u8],
    times: bool,
    sink: &mut T,
) -> Result<Option<u64>, &'static str> {
    let how = Comparing {
        times,
        order: Endian::Little,
    };
    put_in::<LittleEndian, T>(alloc, left, right, how, sink)
}

/// The nodes of two images, whether times are compared, the lines, and how many there are.
type Row = (
    &'static [Node<'static>],
    &'static [Node<'static>],
    bool,
    &'static str,
    u64,
);

pub(crate) const LEFT: &[Node<'static>] = &[
    Node::Owned(2, FILE, b"abc", 1, 2, 5),
    Node::Inode(3, DIRECTORY, b""),
    Node::Inode(4, FILE, b"hi"),
    Node::Inode(5, SYMLINK, b"x"),
    Node::Inode(6, FILE, b"same!"),
    Node::Entry(1, 2, b"a"),
    Node::Entry(1, 3, b"d"),
    Node::Entry(3, 4, b"in"),
    Node::Entry(1, 5, b"l"),
    Node::Entry(1, 6, b"m"),
    Node::Entry(1, 9, b"missing"),
];

pub(crate) const RIGHT: &[Node<'static>] = &[
    Node::Owned(2, FILE, b"abd", 1, 2, 7),
    Node::Inode(4, FILE, b""),
    Node::Inode(5, SYMLINK, b"y"),
    Node::Inode(6, 0o100600, b"same!"),
    Node::Inode(7, DIRECTORY, b""),
    Node::Entry(1, 2, b"a"),
    Node::Entry(1, 4, b"d.x"),
    Node::Entry(1, 5, b"l"),
    Node::Entry(1, 6, b"m"),
    Node::Entry(1, 7, b"z"),
];

pub(crate) const CHANGED: &str = "* /a at 2\n\
- d 0755 0 0 0 /d\n\
- - 0644 0 0 2 /d/in\n\
+ - 0644 0 0 0 /d.x\n\
- l 0777 0 0 1 /l -> x\n\
+ l 0777 0 0 1 /l -> y\n\
- - 0644 0 0 5 /m\n\
+ - 0600 0 0 5 /m\n\
+ d 0755 0 0 0 /z\n";

const CHANGED_WITH_TIMES: &str = "- - 0644 1 2 3 5 /a\n\
+ - 0644 1 2 3 7 /a\n\
- d 0755 0 0 0 0 /d\n\
- - 0644 0 0 2 0 /d/in\n\
+ - 0644 0 0 0 0 /d.x\n\
- l 0777 0 0 1 0 /l -> x\n\
+ l 0777 0 0 1 0 /l -> y\n\
- - 0644 0 0 5 0 /m\n\
+ - 0600 0 0 5 0 /m\n\
+ d 0755 0 0 0 0 /z\n";

/// Directory 2 has two names, and itself in it.
pub(crate) const AGAIN: &[Node<'static>] = &[
    Node::Inode(2, DIRECTORY, b""),
    Node::Entry(1, 2, b"a"),
    Node::Entry(1, 2, b"b"),
    Node::Entry(2, 2, b"c"),
];

pub(crate) const ONCE: &[Node<'static>] = &[
    Node::Inode(2, DIRECTORY, b""),
    Node::Entry(1, 2, b"a"),
];

pub(crate) const AGAIN_LINES: &str = "- d 0755 0 0 0 /a/c (again)\n- d 0755 0 0 0 /b (again)\n";

pub(crate) const AGAIN_ADDED: &str = "+ d 0755 0 0 0 /a/c (again)\n+ d 0755 0 0 0 /b (again)\n";

const OURS: &[Node<'static>] = &[
    Node::Owned(2, FILE, b"abc", 1, 2, 5),
    Node::Entry(1, 2, b"a"),
];

const THEIRS: &[Node<'static>] = &[
    Node::Owned(2, FILE, b"abc", 2, 1, 5),
    Node::Entry(1, 2, b"a"),
];

const OWNERS: &str = "- - 0644 1 2 3 /a\n+ - 0644 2 1 3 /a\n";

/// Devices, of which one has no number.
pub(crate) const DEVICES: &[Node<'static>] = &[
    Node::Inode(2, 0o020666, b"\x03\x01"),
    Node::Inode(3, 0o060660, b"\x0F\x08"),
    Node::Inode(4, 0o020600, b"\x02"),
    Node::Inode(5, 0o060600, b"\x01\x02\x30\x04"),
    Node::Entry(1, 2, b"null"),
    Node::Entry(1, 3, b"sda"),
    Node::Entry(1, 4, b"tty"),
    Node::Entry(1, 5, b"zip"),
];

/// The same, with other numbers, permissions of 3, and a number of 4.
pub(crate) const OTHER_DEVICES: &[Node<'static>] = &[
    Node::Inode(2, 0o020666, b"\x05\x01"),
    Node::Inode(3, 0o060640, b"\x10\x08"),
    Node::Inode(4, 0o020600, b"\x04\x05"),
    Node::Inode(5, 0o060600, b"\x01\x02\x30\x04"),
    Node::Entry(1, 2, b"null"),
    Node::Entry(1, 3, b"sda"),
    Node::Entry(1, 4, b"tty"),
    Node::Entry(1, 5, b"zip"),
];

pub(crate) const NUMBERS: &str = "* /null device 1:3 to 1:5\n\
- b 0660 0 0 2 /sda\n\
+ b 0640 0 0 2 /sda\n\
* /sda device 8:15 to 8:16\n\
- c 0600 0 0 1 /tty\n\
+ c 0600 0 0 2 /tty\n\
* /tty device none to 5:4\n";

/// Files of 4 GiB without a byte, which are passed over.
const HOLES: &[Node<'static>] = &[
    Node::Hole(2, u32::MAX),
    Node::Entry(1, 2, b"a"),
    Node::Entry(1, 2, b"b"),
    Node::Entry(1, 2, b"c"),
];

const ROWS: [Row; 11] = [
    (HOLES, HOLES, true, "", 0),
    (&[], &[], true, "", 0),
    (LEFT, LEFT, true, "", 0),
    (LEFT, RIGHT, false, CHANGED, 9),
    (LEFT, RIGHT, true, CHANGED_WITH_TIMES, 10),
    (AGAIN, ONCE, false, AGAIN_LINES, 2),
    (ONCE, AGAIN, false, AGAIN_ADDED, 2),
    (AGAIN, AGAIN, false, "", 0),
    (OURS, THEIRS, false, OWNERS, 2),
    (DEVICES, OTHER_DEVICES, false, NUMBERS, 7),
    (DEVICES, DEVICES, true, "", 0),
];

#[test]
fn worked_pairs(rt: HostRuntime) -> Result<(), Fail> {
    for (left, right, times, text, count) in ROWS {
        let one = image_of(rt.alloc(), left)?;
        let other = image_of(rt.alloc(), right)?;
        let mut sink = Taker::new(rt.alloc());
        let lines = put(rt.alloc(), &one, &other, times, &mut sink)?;
        equal(&rt, sink.bytes.as_slice(), text.as_bytes());
        equal(&rt, lines, Some(count));
    }
    Ok(())
}

/// A big-endian image of a device with this number.
fn big_endian(alloc: Global, number: &[u8]) -> Result<Vec<u8>, &'static str> {
    let nodes = [Node::Inode(2, 0o020600, number), Node::Entry(1, 2, b"n")];
    image_of_nodes::<BigEndian>(alloc, &nodes, PLAIN).map_err(|_| "no image")
}

/// The numbers are in the order of the images: of four bytes, and of two.
#[test]
fn numbers_of_big_endian_images(rt: HostRuntime) -> Result<(), Fail> {
    let left = big_endian(rt.alloc(), b"\x12\x34\x56\x78")?;
    let right = big_endian(rt.alloc(), b"\x01\x03")?;
    let mut sink = Taker::new(rt.alloc());
    let how = Comparing {
        times: false,
        order: Endian::Big,
    };
    let lines = put_in::<BigEndian, _>(rt.alloc(), &left, &right, how, &mut sink)?;
    let text = "- c 0600 0 0 4 /n\n+ c 0600 0 0 2 /n\n* /n device 1110:74616 to 1:3\n";
    equal(&rt, sink.bytes.as_slice(), text.as_bytes());
    equal(&rt, lines, Some(3));
    Ok(())
}

/// The first byte of a second piece differs.
#[test]
fn a_later_byte(rt: HostRuntime) -> Result<(), Fail> {
    let bytes = vec![in rt.alloc(); b'x'; 5000]?;
    let mut other = vec![in rt.alloc(); b'x'; 4096]?;
    other.resize(5000, b'y')?;
    let left = image_of_file(rt.alloc(), &bytes)?;
    let right = image_of_file(rt.alloc(), &other)?;
    let mut sink = Taker::new(rt.alloc());
    let lines = put(rt.alloc(), &left, &right, false, &mut sink)?;
    equal(&rt, sink.bytes.as_slice(), b"* /f at 4096\n".as_slice());
    equal(&rt, lines, Some(1));
    Ok(())
}

/// Each has taken a beginning of the lines.
#[test]
fn sinks_that_fail(rt: HostRuntime) -> Result<(), Fail> {
    let left = image_of(rt.alloc(), LEFT)?;
    let right = image_of(rt.alloc(), RIGHT)?;
    for limit in [0, 1, 9, 10, 11, 12, 60, 100, 168] {
        let mut sink = Taker::limited(rt.alloc(), 7, limit);
        let lines = put(rt.alloc(), &left, &right, false, &mut sink)?;
        let wanted = CHANGED.as_bytes().get(..limit).ok_or("short")?;
        expect_at(&rt, lines.is_none() && sink.took(1, wanted), limit);
    }
    Ok(())
}
