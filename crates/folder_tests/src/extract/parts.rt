//! Parts of a tree: what is made of what a path names.

use crate::checks::equal;
use crate::extract::images::{LARGE, image_of};
use crate::extract::making::extracted;
use byteorder::LittleEndian;
use jextract::{Part, PartFault, part_at};
use jmount::{FindFault, mount};
use std::alloc::Global;
use std::process::Abort;
use std::test::Fail;
use test_support::{DIRECTORY, FILE, Node, SYMLINK};

/// `/a` with the file `/a/f`, the symlink `/a/s`, and `/a/b` with `/a/b/c` and all that lies in it:
/// the file `g`, a directory, and two further names of files that are outside.
const TREE: &[Node<'static>] = &[
    Node::Inode(2, DIRECTORY, b""),
    Node::Inode(3, FILE, b"f"),
    Node::Inode(4, SYMLINK, b"b/c"),
    Node::Inode(5, 0o041750, b""),
    Node::Inode(6, 0o040700, b""),
    Node::Inode(7, FILE, b"g"),
    Node::Inode(8, DIRECTORY, b""),
    Node::Inode(9, 0o104755, b"z"),
    Node::Inode(10, 0o010644, b""),
    Node::Entry(1, 2, b"a"),
    Node::Entry(2, 3, b"f"),
    Node::Entry(2, 4, b"s"),
    Node::Entry(2, 5, b"b"),
    Node::Entry(5, 6, b"c"),
    Node::Entry(5, 9, b"0"),
    Node::Entry(6, 7, b"g"),
    Node::Entry(6, 8, b"d"),
    Node::Entry(6, 3, b"h"),
    Node::Entry(6, 3, b"i"),
    Node::Entry(8, 9, b"j"),
    Node::Entry(1, 10, b"p"),
    Node::Entry(1, 99, b"x"),
    Node::Entry(1, 9, b"z"),
];

/// A path, what is made of the part there, how many objects are left out and how many lose bits,
/// and what is told.
type Row = (&'static [u8], &'static str, (u64, u64), &'static str);

const DEEP: Row = (
    b"/a/b/c",
    "directory \n\
directory a\n\
directory a/b\n\
directory a/b/c\n\
directory a/b/c/d\n\
file a/b/c/d/j\n\
content a/b/c/d/j [z] 755 7 5\n\
attributes a/b/c/d 755 7 5\n\
file a/b/c/g\n\
content a/b/c/g [g] 644 7 5\n\
file a/b/c/h\n\
content a/b/c/h [f] 644 7 5\n\
link a/b/c/i a/b/c/h\n\
attributes a/b/c 700 7 5\n\
attributes a/b 1750 7 5\n\
attributes a 755 7 5\n\
attributes  755 0 0\n",
    (0, 1),
    "",
);

const A_FILE: Row = (
    b"/a/b/c/g",
    "directory \nfile g\ncontent g [g] 644 7 5\nattributes  755 0 0\n",
    (0, 0),
    "",
);

const A_FURTHER_NAME: Row = (
    b"/z",
    "directory \nfile z\ncontent z [z] 755 7 5\nattributes  755 0 0\n",
    (0, 1),
    "",
);

const A_SYMLINK: Row = (
    b"/a/s",
    "directory \nsymlink s b/c 777 7 5\nattributes  755 0 0\n",
    (0, 0),
    "",
);

const A_FIFO: Row = (
    b"/p",
    "directory \nattributes  755 0 0\n",
    (1, 0),
    "left out /p: FIFO\n",
);

const THE_ROOT: Row = (
    b"/",
    "directory \n\
directory a\n\
directory a/b\n\
file a/b/0\n\
content a/b/0 [z] 755 7 5\n\
directory a/b/c\n\
directory a/b/c/d\n\
link a/b/c/d/j a/b/0\n\
attributes a/b/c/d 755 7 5\n\
file a/b/c/g\n\
content a/b/c/g [g] 644 7 5\n\
file a/b/c/h\n\
content a/b/c/h [f] 644 7 5\n\
link a/b/c/i a/b/c/h\n\
attributes a/b/c 700 7 5\n\
attributes a/b 1750 7 5\n\
link a/f a/b/c/h\n\
symlink a/s b/c 777 7 5\n\
attributes a 755 7 5\n\
link z a/b/0\n\
attributes  755 0 0\n",
    (2, 1),
    "left out /p: FIFO\nleft out /x: no inode\n",
);

fn rows() -> &'static [Row] {
    &[DEEP, A_FILE, A_FURTHER_NAME, A_SYMLINK, A_FIFO, THE_ROOT]
}

/// Stops the test unless this is made and told of a part.
fn is_made(rt: &impl Abort, alloc: Global, row: &Row) -> Result<(), Fail> {
    let (path, made, counted, told) = row;
    let found = extracted(alloc, TREE, Some(*path), false)?;
    equal(rt, found.lines.as_str(), *made);
    equal(rt, found.counted, *counted);
    equal(rt, found.notes.as_slice(), told.as_bytes());
    Ok(())
}

#[test]
fn worked_parts(rt: HostRuntime) -> Result<(), Fail> {
    for row in rows() {
        is_made(&rt, rt.alloc(), row)?;
    }
    Ok(())
}

#[test]
fn owners_of_a_part(rt: HostRuntime) -> Result<(), Fail> {
    let made = extracted(rt.alloc(), TREE, Some(b"/z"), true)?;
    equal(
        &rt,
        made.lines.as_str(),
        "directory \nfile z\ncontent z [z] 4755 7 5 1000:1001\nattributes  755 0 0 0:0\n",
    );
    Ok(())
}

/// The fault of a path that has no part, as a number.
fn fault_of(part: Result<Part<'_>, PartFault>) -> u8 {
    match part {
        Ok(Part::Along(_)) => 0,
        Ok(Part::Alone { .. }) => 1,
        Err(PartFault::Path(FindFault::BadPath)) => 2,
        Err(PartFault::Path(FindFault::NotFound)) => 3,
        Err(PartFault::Path(FindFault::NotDirectory)) => 4,
        Err(PartFault::OutOfMemory) => 5,
    }
}

fn faults() -> &'static [(&'static [u8], u8)] {
    &[
        (b"/", 0),
        (b"/a/b", 0),
        (b"/a/f", 1),
        (b"", 2),
        (b"a", 2),
        (b"/a/", 2),
        (b"/a/./f", 2),
        (b"/q", 3),
        (b"/a/b/q/r", 3),
        (b"/x", 3),
        (b"/a/f/g", 4),
        (b"/a/s/g", 4),
    ]
}

#[test]
fn paths_without_a_part(rt: HostRuntime) -> Result<(), Fail> {
    let image = image_of(rt.alloc(), TREE)?;
    let mounted = mount::<LittleEndian>(rt.alloc(), &image, LARGE)?;
    for &(path, wanted) in faults() {
        equal(&rt, fault_of(part_at(rt.alloc(), &mounted, path)), wanted);
    }
    Ok(())
}
