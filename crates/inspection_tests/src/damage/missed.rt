//! What is mounted with nodes that hide nothing, and what without them.

use crate::checks::{equal, expect_at};
use crate::damage::flips::{GEOMETRY, MANY, Node, flipped_of, put};
use byteorder::LittleEndian;
use jmount::{Object, mount};
use std::alloc::Global;
use std::test::Fail;
use test_support::{FILE, Taker};

/// A node, and the copy of it that garbage collection made.
const COPIED: [Node; 3] = [
    Node::Entry(1, 1, 2, b"a"), // 0
    Node::Inode(2, 1, FILE, 8, 0, b"abcdefgh"), // 44
    Node::Inode(2, 1, FILE, 8, 0, b"abcdefgh"), // 120
];

/// A file that was made longer, and was cut then.
const CUT: [Node; 4] = [
    Node::Entry(1, 1, 2, b"a"), // 0
    Node::Inode(2, 1, FILE, 8, 0, b"abcdefgh"), // 44
    Node::Inode(2, 2, FILE, 10, 8, b"ij"), // 120
    Node::Inode(2, 3, FILE, 8, 0, b""), // 192
];

/// Nodes, the places that are flipped, the bytes of the file then, and how many lines name it.
type Row = (&'static [Node], &'static [usize], &'static [u8; 8], u64);

const ROWS: [Row; 9] = [
    (&MANY, &[], b"eeeecccc", 0),
    (&MANY, &[184], b"eeeecccc", 0),
    (&MANY, &[112, 184, 328, 472], b"eeeecccc", 0),
    (&MANY, &[400], b"aaddcccc", 1),
    (&MANY, &[328, 400], b"aaaacccc", 2),
    (&COPIED, &[112], b"abcdefgh", 0),
    (&COPIED, &[188], b"abcdefgh", 0),
    (&CUT, &[188], b"abcdefgh", 0),
    (&CUT, &[112], b"\0\0\0\0\0\0\0\0", 1),
];

fn rows() -> &'static [Row] {
    &ROWS
}

/// The file of an image, its first bytes, the greatest version, and the next number.
fn file_of(
    alloc: Global,
    image: &[u8],
) -> Result<(Option<Object>, [u8; 8], u32, u64), &'static str> {
    let mounted = mount::<LittleEndian>(alloc, image, GEOMETRY).map_err(|_| "no mount")?;
    let mut bytes = [0; 8];
    let _count = mounted.read_at(2, 0, &mut bytes);
    Ok((mounted.object(2), bytes, mounted.top(2), mounted.next()))
}

/// Where no line names the file, it is the same as without damage.
#[test]
fn nodes_that_hide_nothing(rt: HostRuntime) -> Result<(), Fail> {
    for &(nodes, places, bytes, paths) in rows() {
        let image = flipped_of(rt.alloc(), nodes, places)?;
        let mut sink = Taker::new(rt.alloc());
        let told = put(rt.alloc(), &image, &mut sink)?.ok_or("no totals")?;
        equal(&rt, (told.damaged, told.paths), (places.len(), paths));
        let whole = file_of(rt.alloc(), &flipped_of(rt.alloc(), nodes, &[])?)?;
        let found = file_of(rt.alloc(), &image)?;
        equal(&rt, found.1.as_slice(), bytes.as_slice());
        expect_at(&rt, (found == whole) == (paths == 0), places.len());
    }
    Ok(())
}
