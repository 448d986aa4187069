//! Bytes of files that no node has.

use crate::checks::equal;
use crate::damage::flips::{Node, flipped_of, put, totals};
use std::alloc::Global;
use std::test::Fail;
use test_support::{DIRECTORY, FILE, Taker};

/// A file of two names with gaps in front of its nodes, between them and behind them, one without
/// bytes, and one without a name. A directory has no bytes.
const FILES: [Node; 11] = [
    Node::Entry(1, 1, 2, b"b"), // 0
    Node::Entry(1, 2, 2, b"a"), // 44
    Node::Inode(2, 1, FILE, 10, 8, b"i"), // 88
    Node::Inode(2, 2, FILE, 10, 2, b"cd"), // 160
    Node::Inode(2, 3, FILE, 10, 3, b"def"), // 232
    Node::Inode(2, 4, FILE, 10, 7, b""), // 304
    Node::Entry(1, 3, 3, b"e"), // 372
    Node::Inode(3, 1, FILE, 4, 0, b""), // 416
    Node::Inode(4, 1, FILE, 4, 0, b""), // 484
    Node::Entry(1, 4, 5, b"d"), // 552
    Node::Inode(5, 1, DIRECTORY, 4, 0, b""), // 596
];

const GAPS: &str = "gap ino 2 bytes 0 to 2 in /a\n\
gap ino 2 bytes 0 to 2 in /b\n\
gap ino 2 bytes 6 to 8 in /a\n\
gap ino 2 bytes 6 to 8 in /b\n\
gap ino 2 bytes 9 to 10 in /a\n\
gap ino 2 bytes 9 to 10 in /b\n\
gap ino 3 bytes 0 to 4 in /e\n\
total damaged 0 paths 0 missing 0 gaps 4\n";

const WIDER: &str = "00000058 data-crc ino 2 version 1 bytes 8 to 9 hides /a\n\
00000058 data-crc ino 2 version 1 bytes 8 to 9 hides /b\n\
gap ino 2 bytes 0 to 2 in /a\n\
gap ino 2 bytes 0 to 2 in /b\n\
gap ino 2 bytes 6 to 10 in /a\n\
gap ino 2 bytes 6 to 10 in /b\n\
gap ino 3 bytes 0 to 4 in /e\n\
total damaged 1 paths 2 missing 0 gaps 3\n";

/// A file that has all its bytes, some of them twice and some behind its size.
const WHOLE: [Node; 4] = [
    Node::Entry(1, 1, 2, b"a"), // 0
    Node::Inode(2, 1, FILE, 10, 4, b"efghij"), // 44
    Node::Inode(2, 2, FILE, 6, 0, b"ab"), // 120
    Node::Inode(2, 3, FILE, 6, 1, b"bcd"), // 192
];

const NO_GAP: &str = "total damaged 0 paths 0 missing 0 gaps 0\n";

/// A file of 17 names.
const NAMED: [Node; 18] = [
    Node::Inode(2, 1, FILE, 2, 1, b"b"),
    Node::Entry(1, 1, 2, b"a"),
    Node::Entry(1, 2, 2, b"b"),
    Node::Entry(1, 3, 2, b"c"),
    Node::Entry(1, 4, 2, b"d"),
    Node::Entry(1, 5, 2, b"e"),
    Node::Entry(1, 6, 2, b"f"),
    Node::Entry(1, 7, 2, b"g"),
    Node::Entry(1, 8, 2, b"h"),
    Node::Entry(1, 9, 2, b"i"),
    Node::Entry(1, 10, 2, b"j"),
    Node::Entry(1, 11, 2, b"k"),
    Node::Entry(1, 12, 2, b"l"),
    Node::Entry(1, 13, 2, b"m"),
    Node::Entry(1, 14, 2, b"n"),
    Node::Entry(1, 15, 2, b"o"),
    Node::Entry(1, 16, 2, b"p"),
    Node::Entry(1, 17, 2, b"q"),
];

const MORE: &str = "gap ino 2 bytes 0 to 1 in /a\n\
gap ino 2 bytes 0 to 1 in /b\n\
gap ino 2 bytes 0 to 1 in /c\n\
gap ino 2 bytes 0 to 1 in /d\n\
gap ino 2 bytes 0 to 1 in /e\n\
gap ino 2 bytes 0 to 1 in /f\n\
gap ino 2 bytes 0 to 1 in /g\n\
gap ino 2 bytes 0 to 1 in /h\n\
gap ino 2 bytes 0 to 1 in /i\n\
gap ino 2 bytes 0 to 1 in /j\n\
gap ino 2 bytes 0 to 1 in /k\n\
gap ino 2 bytes 0 to 1 in /l\n\
gap ino 2 bytes 0 to 1 in /m\n\
gap ino 2 bytes 0 to 1 in /n\n\
gap ino 2 bytes 0 to 1 in /o\n\
gap ino 2 bytes 0 to 1 in /p\n\
gap ino 2 bytes 0 to 1 and 1 more paths\n\
total damaged 0 paths 0 missing 0 gaps 1\n";

/// The nodes, the places that are flipped, the lines, and the totals.
type Row = (
    &'static [Node],
    &'static [usize],
    &'static str,
    (usize, u64, usize, usize),
);

const ROWS: [Row; 4] = [
    (&FILES, &[], GAPS, (0, 0, 0, 4)),
    (&FILES, &[156], WIDER, (1, 2, 0, 3)),
    (&WHOLE, &[], NO_GAP, (0, 0, 0, 0)),
    (&NAMED, &[], MORE, (0, 0, 0, 1)),
];

fn rows() -> &'static [Row] {
    &ROWS
}

/// Whether each line is there, and the totals.
fn is_told(alloc: Global, (nodes, places, text, wanted): Row) -> Result<bool, &'static str> {
    let image = flipped_of(alloc, nodes, places)?;
    let mut sink = Taker::new(alloc);
    let found = put(alloc, &image, &mut sink)?;
    Ok(sink.bytes.as_slice() == text.as_bytes() && found == Some(totals(wanted)))
}

#[test]
fn gaps_of_files(rt: HostRuntime) -> Result<(), Fail> {
    for &row in rows() {
        equal(&rt, is_told(rt.alloc(), row), Ok(true));
    }
    Ok(())
}
