//! Directories of several names: each path that `ls` lists is told. It enters a directory once, by
//! the name that it meets first.

use crate::checks::equal;
use crate::damage::flips::{Node, flipped_of, put, totals};
use std::alloc::Global;
use std::test::Fail;
use test_support::{DIRECTORY, FILE, Taker};

/// What is flipped, the places, the lines, and the totals.
pub(crate) type Case = (
    &'static [Node],
    &'static [usize],
    &'static str,
    (usize, u64, usize, usize),
);

/// A directory with the names `x`, in the directory `d`, and `a`, in `q`. There is a file in it.
const TWICE: [Node; 11] = [
    Node::Inode(2, 1, DIRECTORY, 0, 0, b""), // 0
    Node::Entry(1, 2, 2, b"d"), // 68
    Node::Entry(2, 1, 3, b"x"), // 112
    Node::Inode(3, 1, DIRECTORY, 0, 0, b""), // 156
    Node::Entry(3, 1, 4, b"f"), // 224
    Node::Inode(4, 1, FILE, 1, 0, b"x"), // 268
    Node::Inode(6, 1, DIRECTORY, 0, 0, b""), // 340
    Node::Entry(1, 1, 6, b"q"), // 408
    Node::Entry(6, 1, 3, b"a"), // 452
    Node::Inode(4, 2, FILE, 1, 0, b"y"), // 496
    Node::Inode(3, 2, DIRECTORY, 1, 0, b"r"), // 568
];

const BY_FIRST: &str = "000001f0 data-crc ino 4 version 2 bytes 0 to 1 hides /d/x/f\n\
total damaged 1 paths 1 missing 0 gaps 0\n";

const BY_SECOND: &str = "00000044 name-crc pino 1 version 2 ino 2 lost in /\n\
000001f0 data-crc ino 4 version 2 bytes 0 to 1 hides /q/a/f\n\
total damaged 2 paths 1 missing 0 gaps 0\n";

const BY_NEITHER: &str = "00000044 name-crc pino 1 version 2 ino 2 lost in /\n\
000001c4 name-crc pino 6 version 1 ino 3 lost in /q\n\
000001f0 data-crc ino 4 version 2 bytes 0 to 1 has no path\n\
total damaged 3 paths 0 missing 0 gaps 0\n";

const BOTH_NAMES: &str = "00000238 data-crc ino 3 version 2 bytes 0 to 1 hides /d/x\n\
00000238 data-crc ino 3 version 2 bytes 0 to 1 hides /q/a\n\
total damaged 1 paths 2 missing 0 gaps 0\n";

const ONE_NAME: &str = "00000044 name-crc pino 1 version 2 ino 2 lost in /\n\
00000238 data-crc ino 3 version 2 bytes 0 to 1 hides /q/a\n\
total damaged 2 paths 1 missing 0 gaps 0\n";

/// The same, but `z` in the place of `d`, so that `q` comes before it, and the number of `q` is the
/// greater one.
const LATER: [Node; 8] = [
    Node::Inode(2, 1, DIRECTORY, 0, 0, b""), // 0
    Node::Entry(1, 2, 2, b"z"), // 68
    Node::Entry(2, 1, 3, b"x"), // 112
    Node::Inode(3, 1, DIRECTORY, 0, 0, b""), // 156
    Node::Entry(3, 1, 4, b"gone"), // 224
    Node::Inode(6, 1, DIRECTORY, 0, 0, b""), // 268
    Node::Entry(1, 1, 6, b"q"), // 336
    Node::Entry(6, 1, 3, b"a"), // 380
];

const BY_ENTERED: &str = "missing /q/a/gone ino 4\n\
total damaged 0 paths 0 missing 1 gaps 0\n";

const BY_FIRST_LEFT: &str = "0000017c name-crc pino 6 version 1 ino 3 lost in /q\n\
missing /z/x/gone ino 4\n\
total damaged 1 paths 0 missing 1 gaps 0\n";

/// The name of the lower directory number lies in a regular file.
const UNDER_FILE: [Node; 9] = [
    Node::Inode(2, 1, FILE, 0, 0, b""), // 0
    Node::Entry(1, 2, 2, b"r"), // 68
    Node::Entry(2, 1, 3, b"x"), // 112
    Node::Inode(3, 1, DIRECTORY, 0, 0, b""), // 156
    Node::Entry(3, 1, 4, b"f"), // 224
    Node::Inode(6, 1, DIRECTORY, 0, 0, b""), // 268
    Node::Entry(1, 1, 6, b"q"), // 336
    Node::Entry(6, 1, 3, b"a"), // 380
    Node::Inode(4, 2, FILE, 1, 0, b"y"), // 424
];

const BESIDE_FILE: &str = "000001a8 data-crc ino 4 version 2 bytes 0 to 1 hides /q/a/f\n\
missing /q/a/f ino 4\n\
total damaged 1 paths 1 missing 1 gaps 0\n";

/// Two directories that lie in one another, one of which has a name in `q` too.
const RING: [Node; 9] = [
    Node::Inode(2, 1, DIRECTORY, 0, 0, b""), // 0
    Node::Entry(3, 1, 2, b"up"), // 68
    Node::Inode(3, 1, DIRECTORY, 0, 0, b""), // 112
    Node::Entry(2, 1, 3, b"down"), // 180
    Node::Inode(6, 1, DIRECTORY, 0, 0, b""), // 224
    Node::Entry(1, 1, 6, b"q"), // 292
    Node::Entry(6, 1, 2, b"in"), // 336
    Node::Entry(3, 2, 4, b"f"), // 380
    Node::Inode(4, 2, FILE, 1, 0, b"y"), // 424
];

const INTO_RING: &str = "000001a8 data-crc ino 4 version 2 bytes 0 to 1 hides /q/in/down/f\n\
missing /q/in/down/f ino 4\n\
total damaged 1 paths 1 missing 1 gaps 0\n";

const NOT_INTO_RING: &str = "00000150 name-crc pino 6 version 1 ino 2 lost in /q\n\
000001a8 data-crc ino 4 version 2 bytes 0 to 1 has no path\n\
missing pino 3 name f ino 4\n\
total damaged 2 paths 0 missing 1 gaps 0\n";

/// A name of the root, in a directory of two names in the root.
const ROOT_AGAIN: [Node; 6] = [
    Node::Inode(2, 1, DIRECTORY, 0, 0, b""), // 0
    Node::Entry(1, 1, 2, b"b"), // 68
    Node::Entry(1, 2, 2, b"a"), // 112
    Node::Entry(2, 1, 1, b"top"), // 156
    Node::Entry(2, 2, 5, b"gone"), // 200
    Node::Inode(1, 5, DIRECTORY, 1, 0, b"r"), // 244
];

const ROOT_TWICE: &str = "000000f4 data-crc ino 1 version 5 bytes 0 to 1 hides /\n\
000000f4 data-crc ino 1 version 5 bytes 0 to 1 hides /a/top\n\
missing /a/gone ino 5\n\
total damaged 1 paths 2 missing 1 gaps 0\n";

const CASES: [Case; 11] = [
    (&TWICE, &[564], BY_FIRST, (1, 1, 0, 0)),
    (&TWICE, &[108, 564], BY_SECOND, (2, 1, 0, 0)),
    (&TWICE, &[108, 492, 564], BY_NEITHER, (3, 0, 0, 0)),
    (&TWICE, &[636], BOTH_NAMES, (1, 2, 0, 0)),
    (&TWICE, &[108, 636], ONE_NAME, (2, 1, 0, 0)),
    (&LATER, &[], BY_ENTERED, (0, 0, 1, 0)),
    (&LATER, &[420], BY_FIRST_LEFT, (1, 0, 1, 0)),
    (&UNDER_FILE, &[492], BESIDE_FILE, (1, 1, 1, 0)),
    (&RING, &[492], INTO_RING, (1, 1, 1, 0)),
    (&RING, &[376, 492], NOT_INTO_RING, (2, 0, 1, 0)),
    (&ROOT_AGAIN, &[312], ROOT_TWICE, (1, 2, 1, 0)),
];

pub(crate) fn cases() -> &'static [Case] {
    &CASES
}

/// Whether each line is there, and the totals.
fn is_told(alloc: Global, (nodes, places, text, wanted): Case) -> Result<bool, &'static str> {
    let image = flipped_of(alloc, nodes, places)?;
    let mut sink = Taker::new(alloc);
    let found = put(alloc, &image, &mut sink)?;
    Ok(sink.bytes.as_slice() == text.as_bytes() && found == Some(totals(wanted)))
}

#[test]
fn directories_of_several_names(rt: HostRuntime) -> Result<(), Fail> {
    for &case in cases() {
        equal(&rt, is_told(rt.alloc(), case), Ok(true));
    }
    Ok(())
}
