//! Where the other node of a clash is.

use crate::checks::equal_at;
use crate::clash::rows::{Node, made, put};
use byteorder::{BigEndian, LittleEndian};
use jclash::clash_below;
use jscan::{GREATEST_IMAGE, Geometry};
use std::alloc::Global;
use std::process::Abort;
use std::test::Fail;

const GEOMETRY: Geometry = Geometry { block: 4096 };

const AB: Node = Node::Inode(2, 5, 1, b"ab");

const CD: Node = Node::Inode(2, 5, 1, b"cd");

/// As `AB`, of another owner.
const OWNED: Node = Node::Inode(2, 5, 3, b"ab");

const NAME: Node = Node::Entry(1, 6, 2, b"nam\xff");

const OTHER_NUMBER: Node = Node::Entry(1, 6, 4, b"nam\xff");

const REMOVED: Node = Node::Entry(1, 6, 0, b"nam\xff");

/// Nodes with their addresses, how many bytes the image lacks at its end, and for each of some
/// addresses the lowest one of a node that clashes with the node there, where it is below.
struct Image {
    nodes: &'static [(u32, Node)],
    lacks: usize,
    others: &'static [(u32, Option<u32>)],
}

const IMAGES: [Image; 7] = [
    Image {
        nodes: &[],
        lacks: 0,
        others: &[(0, None), (4, None), (u32::MAX, None)],
    },
    // Each pair of three clashes.
    Image {
        nodes: &[(0, AB), (72, CD), (144, OWNED)],
        lacks: 0,
        others: &[
            (0, None),
            (4, None),
            (72, Some(0)),
            (144, Some(0)),
            (216, None),
        ],
    },
    // A twin does not clash.
    Image {
        nodes: &[(0, AB), (72, AB), (144, CD), (216, AB), (4096, CD)],
        lacks: 0,
        others: &[
            (0, None),
            (72, None),
            (144, Some(0)),
            (216, Some(144)),
            (4096, Some(0)),
        ],
    },
    // Nodes of two objects, two versions, two directories, two names and two kinds.
    Image {
        nodes: &[
            (0, AB),
            (72, Node::Inode(3, 5, 1, b"cd")),
            (144, Node::Inode(2, 6, 1, b"cd")),
            (216, NAME),
            (260, Node::Entry(2, 6, 4, b"nam\xff")),
            (304, Node::Entry(1, 7, 4, b"nam\xff")),
            (348, Node::Entry(1, 6, 4, b"name")),
            (392, Node::Entry(2, 5, 4, b"x")),
        ],
        lacks: 0,
        others: &[
            (0, None),
            (72, None),
            (144, None),
            (216, None),
            (260, None),
            (304, None),
            (348, None),
            (392, None),
        ],
    },
    // Several clashes, one within the other.
    Image {
        nodes: &[
            (12, AB),
            (84, NAME),
            (128, CD),
            (200, OTHER_NUMBER),
            (5000, REMOVED),
        ],
        lacks: 0,
        others: &[
            (12, None),
            (84, None),
            (128, Some(12)),
            (200, Some(84)),
            (5000, Some(84)),
        ],
    },
    // A name of which the image lacks a byte 0xFF.
    Image {
        nodes: &[(0, OTHER_NUMBER), (44, NAME)],
        lacks: 1,
        others: &[(0, None), (44, Some(0))],
    },
    Image {
        nodes: &[(0, NAME), (44, NAME)],
        lacks: 1,
        others: &[(0, None), (44, None)],
    },
];

/// The bytes of an image in the little order.
fn bytes_of(alloc: Global, image: &Image) -> Result<Vec<u8>, Fail> {
    let mut bytes = Vec::new(alloc);
    for (addr, node) in image.nodes {
        for _ in bytes.len()..*addr as usize {
            bytes.push(0xFF)?;
        }
        put(&mut bytes, &made(*node))?;
    }
    let len = bytes.len().saturating_sub(image.lacks);
    bytes.truncate(len);
    Ok(bytes)
}

/// The answer in both orders, where the image is no larger than any that is read.
fn answers(image: &[u8], addr: u32) -> Option<(Option<u32>, Option<u32>)> {
    if image.len() > GREATEST_IMAGE {
        return None;
    }
    Some((
        clash_below::<LittleEndian>(image, GEOMETRY, addr),
        clash_below::<BigEndian>(image, GEOMETRY, addr),
    ))
}

fn has_others(rt: &impl Abort, alloc: Global, image: &Image) -> Result<(), Fail> {
    let bytes = bytes_of(alloc, image)?;
    for (addr, other) in image.others {
        equal_at(rt, answers(&bytes, *addr), Some((*other, None)), *addr);
    }
    Ok(())
}

#[test]
fn others_are_lowest(rt: HostRuntime) -> Result<(), Fail> {
    for image in IMAGES.iter() {
        has_others(&rt, rt.alloc(), image)?;
    }
    Ok(())
}
