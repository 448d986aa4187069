//! Images with nodes that clash.

use crate::checks::{equal, expect, expect_at};
use crate::convert::converting::BLOCKS_OF_8_KIB;
use crate::convert::vectors::*;
use byteorder::{BigEndian, LittleEndian};
use jconvert::{ConvertFault, LeftOut, decompress_apart, decompressed, judge, part, write_nodes};
use jnode::{NodeRef, Order};
use jscan::Geometry;
use std::alloc::Global;
use std::process::Abort;
use std::test::Fail;
use test_support::{Attributes, FILE, Node, Taker, image_of_nodes};

const ATTRIBUTES: Attributes = Attributes {
    uid: 5,
    gid: 6,
    atime: 7,
    mtime: 8,
};

const AB: Node<'static> = Node::Inode(2, FILE, b"ab");

const CD: Node<'static> = Node::Inode(2, FILE, b"cd");

const EF: Node<'static> = Node::Inode(2, FILE, b"ef");

/// A node that is left out: its address, and that of the highest one that clashes with it.
struct Left(u32, u32);

/// Nodes, those that stay, and those that are left out.
struct Row {
    nodes: &'static [Node<'static>],
    stay: &'static [Node<'static>],
    left: &'static [Left],
}

/// None clash: another directory, another name, an entry beside an inode node, or twins, which stay
/// both.
fn without_clashes() -> &'static [Row] {
    &[
        Row {
            nodes: &[
                AB,
                Node::Entry(1, 2, b"a"),
                Node::Entry(1, 3, b"b"),
                Node::Entry(2, 3, b"a"),
            ],
            stay: &[
                AB,
                Node::Entry(1, 2, b"a"),
                Node::Entry(1, 3, b"b"),
                Node::Entry(2, 3, b"a"),
            ],
            left: &[],
        },
        Row {
            nodes: &[AB, AB],
            stay: &[AB, AB],
            left: &[],
        },
    ]
}

/// The higher one stays, whichever it is. Entries clash by their numbers.
fn pairs() -> &'static [Row] {
    &[
        Row {
            nodes: &[AB, CD],
            stay: &[CD],
            left: &[Left(0, 72)],
        },
        Row {
            nodes: &[CD, AB],
            stay: &[AB],
            left: &[Left(0, 72)],
        },
        Row {
            nodes: &[Node::Entry(1, 2, b"a"), Node::Entry(1, 3, b"a")],
            stay: &[Node::Entry(1, 3, b"a")],
            left: &[Left(0, 44)],
        },
        Row {
            nodes: &[Node::Entry(1, 3, b"a"), AB, Node::Entry(1, 2, b"a"), CD],
            stay: &[Node::Entry(1, 2, b"a"), CD],
            left: &[Left(0, 116), Left(44, 160)],
        },
    ]
}

/// Three that clash, and two by their times alone.
fn three() -> &'static [Row] {
    &[
        Row {
            nodes: &[AB, CD, EF],
            stay: &[EF],
            left: &[Left(0, 144), Left(72, 144)],
        },
        // The first says what the last says, and clashes with the one between.
        Row {
            nodes: &[AB, CD, AB],
            stay: &[AB],
            left: &[Left(0, 72), Left(72, 144)],
        },
        Row {
            nodes: &[AB, AB, CD],
            stay: &[CD],
            left: &[Left(0, 144), Left(72, 144)],
        },
        Row {
            nodes: &[AB, CD, CD],
            stay: &[CD, CD],
            left: &[Left(0, 144)],
        },
        // A clash of times alone.
        Row {
            nodes: &[
                Node::Owned(2, FILE, b"ab", 5, 6, 9),
                Node::Entry(1, 2, b"a"),
                AB,
            ],
            stay: &[Node::Entry(1, 2, b"a"), AB],
            left: &[Left(0, 116)],
        },
    ]
}

fn are_left(left: &[LeftOut], wanted: &[Left]) -> bool {
    if left.len() != wanted.len() {
        return false;
    }
    for i in 0..left.len() {
        let Left(addr, by) = wanted[i];
        if left[i].addr != addr || left[i].by != by {
            return false;
        }
    }
    true
}

/// What goes out is what is made of the nodes that stay alone.
fn is_parted<E: Order>(rt: &impl Abort, alloc: Global, row: &Row) -> Result<(), Fail> {
    let image = image_of_nodes::<E>(alloc, row.nodes, ATTRIBUTES)?;
    let alone = image_of_nodes::<E>(alloc, row.stay, ATTRIBUTES)?;
    let wanted = decompressed::<E>(alloc, &alone, BLOCKS_OF_8_KIB);
    let sink = Taker::new(alloc);
    let Ok((sink, done)) = decompress_apart::<E, Taker>(alloc, &image, BLOCKS_OF_8_KIB, sink) else {
        panic!(rt; "refused");
    };
    equal(rt, done.told.changed, 0);
    equal(rt, done.told.nodes, row.stay.len() as u64);
    equal(rt, done.told.bytes, sink.bytes.len() as u64);
    expect(rt, are_left(&done.left, row.left));
    match wanted {
        Ok(wanted) => expect(rt, sink.bytes == wanted),
        Err(_) => panic!(rt; "refused alone"),
    }
    Ok(())
}

fn are_parted(rt: &impl Abort, alloc: Global, rows: &[Row]) -> Result<(), Fail> {
    for row in rows {
        is_parted::<LittleEndian>(rt, alloc, row)?;
        is_parted::<BigEndian>(rt, alloc, row)?;
    }
    Ok(())
}

#[test]
fn nodes_that_clash_are_left_out(rt: HostRuntime) -> Result<(), Fail> {
    for rows in [without_clashes(), pairs(), three()] {
        are_parted(&rt, rt.alloc(), rows)?;
    }
    Ok(())
}

/// Images whose nodes are compressed go out as `decompress` puts them, where none clash.
#[test]
fn nothing_is_left_out(rt: HostRuntime) {
    let sink = Taker::new(rt.alloc());
    let image = little_image();
    match decompress_apart::<LittleEndian, Taker>(rt.alloc(), image, BLOCKS_OF_8_KIB, sink) {
        Ok((sink, done)) => {
            expect(&rt, sink.bytes.as_slice() == little_expanded());
            equal(&rt, (done.told.changed, done.left.len()), (6, 0));
        }
        Err(_) => panic!(rt; "refused"),
    }
    let sink = Taker::new(rt.alloc());
    let image = big_image();
    match decompress_apart::<BigEndian, Taker>(rt.alloc(), image, BLOCKS_OF_8_KIB, sink) {
        Ok((sink, done)) => {
            expect(&rt, sink.bytes.as_slice() == big_expanded());
            equal(&rt, (done.told.changed, done.left.len()), (6, 0));
        }
        Err(_) => panic!(rt; "refused"),
    }
}

/// The calls that it is made of, of an image whose first node is left out.
#[test]
fn calls_one_after_another(rt: HostRuntime) -> Result<(), Fail> {
    let alloc = rt.alloc();
    let image = image_of_nodes::<LittleEndian>(alloc, &[AB, CD], ATTRIBUTES)?;
    let Ok(judged) = judge::<LittleEndian>(alloc, &image, BLOCKS_OF_8_KIB, 100) else {
        panic!(rt; "refused");
    };
    let Ok(parted) = part::<LittleEndian>(alloc, &image, BLOCKS_OF_8_KIB, &judged.held) else {
        panic!(rt; "not parted");
    };
    expect(&rt, are_left(&parted.left, &[Left(0, 72)]));
    for node in &parted.stay {
        expect(&rt, matches!(node, NodeRef::Inode(inode) if inode.uid == 5));
    }
    let mut sink = Taker::new(alloc);
    let end = write_nodes::<LittleEndian, Taker>(alloc, &parted.stay, BLOCKS_OF_8_KIB, &mut sink);
    expect(&rt, end == Ok(84) && sink.bytes.len() == 84);
    Ok(())
}

/// Images, their block sizes, and their faults.
fn refused() -> &'static [(Image, u32, ConvertFault)] {
    &[
        (Image::NoContent, 8192, ConvertFault::Data { addr: 12 }),
        (Image::Little, 4096, ConvertFault::Geometry),
        (Image::Little, 8190, ConvertFault::BlockSize),
    ]
}

/// What `decompress` refuses is refused before a byte is put.
#[test]
fn refusals_come_first(rt: HostRuntime) {
    for &(image, block, wanted) in refused() {
        let sink = Taker::new(rt.alloc());
        let geometry = Geometry { block };
        match decompress_apart::<LittleEndian, Taker>(rt.alloc(), image.bytes(), geometry, sink) {
            Err((fault, Some(back))) => {
                expect_at(&rt, fault == wanted, block);
                expect(&rt, back.took(0, &[]));
            }
            _ => panic!(rt; "not refused"),
        }
    }
}
