//! Worked trees: what is made of them, and what is told. Many levels are in tests/folders.py.

use crate::checks::{equal, expect};
use crate::extract::images::PLAIN;
use crate::extract::making::extracted;
use crate::extract::recorder::is_made_once;
use std::alloc::Global;
use std::process::Abort;
use std::test::Fail;
use test_support::{DIRECTORY, FILE, Node, SYMLINK};

/// Nodes, what is made of them, how many objects are left out and how many lose bits, and what is
/// told.
type Row = (
    &'static [Node<'static>],
    &'static str,
    (u64, u64),
    &'static str,
);

const PLAIN_TREE: Row = (
    PLAIN,
    "directory \n\
directory d\n\
file d/f\n\
content d/f [hi] 755 7 5\n\
attributes d 1700 7 5\n\
symlink s /d/f 777 7 5\n\
link t d/f\n\
link u s\n\
attributes  755 0 0\n",
    (1, 1),
    "left out /x: no inode\n",
);

const BAD_NAMES: Row = (
    &[
        Node::Inode(1, DIRECTORY, b""),
        Node::Inode(2, DIRECTORY, b""),
        Node::Inode(3, FILE, b"x"),
        Node::Inode(4, FILE, b"x"),
        Node::Entry(1, 2, b".."),
        Node::Entry(2, 3, b"passwd"),
        Node::Entry(1, 4, b"."),
        Node::Entry(1, 4, b"a/b"),
        Node::Entry(1, 4, b"a\0b"),
        Node::Entry(1, 4, b"\xff"),
        Node::Entry(1, 4, b"..."),
    ],
    "directory \n\
file ...\n\
content ... [x] 644 7 5\n\
attributes  755 7 5\n",
    (5, 0),
    "left out /.: a name that no file has\n\
left out /..: a name that no file has\n\
left out /a\\x00b: a name that no file has\n\
left out /a\\x2fb: a name that no file has\n\
left out /\\xff: no text\n",
);

/// A directory that would be reached through a symlink out of the folder.
const TWINS: Row = (
    &[
        Node::Inode(2, SYMLINK, b"/tmp"),
        Node::Inode(3, DIRECTORY, b""),
        Node::Inode(4, FILE, b"x"),
        Node::Entry(1, 2, b"x"),
        Node::Entry(2, 4, b"f"),
        Node::Entry(1, 3, b"y"),
        Node::Entry(3, 2, b"x"),
    ],
    "directory \n\
symlink x /tmp 777 7 5\n\
directory y\n\
link y/x x\n\
attributes y 755 7 5\n\
attributes  755 0 0\n",
    (0, 0),
    "",
);

const CIRCLE: Row = (
    &[
        Node::Inode(2, DIRECTORY, b""),
        Node::Entry(1, 2, b"d"),
        Node::Entry(2, 1, b"x"),
        Node::Entry(2, 2, b"y"),
        Node::Entry(1, 2, b"z"),
    ],
    "directory \n\
directory d\n\
attributes d 755 7 5\n\
attributes  755 0 0\n",
    (3, 0),
    "left out /d/x: directory again\n\
left out /d/y: directory again\n\
left out /z: directory again\n",
);

const OTHER_KINDS: Row = (
    &[
        Node::Inode(2, 0o010600, b""),
        Node::Inode(3, 0o020600, b""),
        Node::Inode(4, 0o060600, b""),
        Node::Inode(5, 0o140600, b""),
        Node::Inode(6, 0o150600, b""),
        Node::Inode(7, SYMLINK, b""),
        Node::Inode(8, SYMLINK, b"a\0b"),
        Node::Inode(9, SYMLINK, b"\xff"),
        Node::Entry(1, 2, b"a"),
        Node::Entry(1, 3, b"b"),
        Node::Entry(1, 4, b"c"),
        Node::Entry(1, 5, b"d"),
        Node::Entry(1, 6, b"e"),
        Node::Entry(1, 7, b"f"),
        Node::Entry(1, 8, b"g"),
        Node::Entry(1, 9, b"h"),
    ],
    "directory \n\
attributes  755 0 0\n",
    (8, 0),
    "left out /a: FIFO\n\
left out /b: character device\n\
left out /c: block device\n\
left out /d: socket\n\
left out /e: a kind that is not known\n\
left out /f: bad target\n\
left out /g: bad target\n\
left out /h: bad target\n",
);

fn rows() -> &'static [Row] {
    &[PLAIN_TREE, BAD_NAMES, TWINS, CIRCLE, OTHER_KINDS]
}

/// Stops the test unless this is made and told of a tree.
fn is_made(rt: &impl Abort, alloc: Global, row: &Row) -> Result<(), Fail> {
    let (nodes, made, counted, told) = row;
    let found = extracted(alloc, nodes, None, false)?;
    equal(rt, found.lines.as_str(), *made);
    equal(rt, found.counted, *counted);
    equal(rt, found.notes.as_slice(), told.as_bytes());
    Ok(())
}

#[test]
fn worked_trees(rt: HostRuntime) -> Result<(), Fail> {
    for row in rows() {
        is_made(&rt, rt.alloc(), row)?;
    }
    Ok(())
}

/// Whether no path is made twice of a tree, with its owners.
fn is_each_made_once(alloc: Global, row: &Row) -> Result<bool, Fail> {
    let made = extracted(alloc, row.0, None, true)?;
    Ok(is_made_once(alloc, made.lines.as_str())?)
}

#[test]
fn no_path_is_made_twice(rt: HostRuntime) -> Result<(), Fail> {
    for row in rows() {
        expect(&rt, is_each_made_once(rt.alloc(), row)?);
    }
    expect(
        &rt,
        !is_made_once(rt.alloc(), "directory \nsymlink a /tmp 777 7 5\nfile a\n")?,
    );
    Ok(())
}

#[test]
fn owners_where_they_are_asked_for(rt: HostRuntime) -> Result<(), Fail> {
    let nodes = [Node::Inode(2, FILE, b"x"), Node::Entry(1, 2, b"f")];
    let made = extracted(rt.alloc(), &nodes, None, true)?;
    equal(
        &rt,
        made.lines.as_str(),
        "directory \nfile f\ncontent f [x] 644 7 5 1000:1001\nattributes  755 0 0 0:0\n",
    );
    Ok(())
}

/// Set-id bits, and no others, are dropped with the owners, of each object once; a sticky bit
/// stays.
#[test]
fn bits_that_go_with_owners(rt: HostRuntime) -> Result<(), Fail> {
    let nodes = [
        Node::Inode(2, 0o104755, b"x"),
        Node::Inode(3, 0o102711, b"x"),
        Node::Inode(4, 0o106000, b"x"),
        Node::Inode(5, 0o043775, b""),
        Node::Inode(6, 0o101644, b"x"),
        Node::Entry(1, 2, b"a"),
        Node::Entry(1, 2, b"b"),
        Node::Entry(1, 3, b"c"),
        Node::Entry(1, 4, b"e"),
        Node::Entry(1, 5, b"f"),
        Node::Entry(1, 6, b"g"),
    ];
    let without = extracted(rt.alloc(), &nodes, None, false)?;
    equal(
        &rt,
        without.lines.as_str(),
        "directory \n\
file a\n\
content a [x] 755 7 5\n\
link b a\n\
file c\n\
content c [x] 711 7 5\n\
file e\n\
content e [x] 0 7 5\n\
directory f\n\
attributes f 1775 7 5\n\
file g\n\
content g [x] 1644 7 5\n\
attributes  755 0 0\n",
    );
    equal(&rt, without.counted, (0, 4));
    let with = extracted(rt.alloc(), &nodes, None, true)?;
    expect(
        &rt,
        with.lines.contains("content a [x] 4755 7 5 1000:1001\n"),
    );
    expect(
        &rt,
        with.lines.contains("attributes f 3775 7 5 1000:1001\n"),
    );
    equal(&rt, with.counted, (0, 0));
    Ok(())
}
