//! The objects that no names lead to.

use crate::checks::equal_at;
use byteorder::LittleEndian;
use jcompact::unreached;
use jmount::mount;
use jscan::Geometry;
use std::process::Abort;
use std::test::Fail;
use test_support::{Tree, image_of};

const GEOMETRY: Geometry = Geometry { block: 4096 };

const FOLDER: u32 = 0o40755;

const FILE: u32 = 0o100644;

fn empty() -> Tree {
    Tree {
        objects: &[],
        names: &[],
    }
}

/// A file in a directory, and a second name of it.
fn linked() -> Tree {
    Tree {
        objects: &[(2, 1, FOLDER, 0), (3, 1, FILE, 4)],
        names: &[(1, 1, 2, "d"), (2, 1, 3, "f"), (1, 2, 3, "g")],
    }
}

/// A name that was removed, and what was below it.
fn removed() -> Tree {
    Tree {
        objects: &[(2, 1, FOLDER, 0), (3, 1, FILE, 4), (4, 1, FILE, 4)],
        names: &[
            (1, 1, 2, "d"),
            (2, 1, 3, "f"),
            (1, 2, 0, "d"),
            (1, 3, 4, "g"),
        ],
    }
}

/// A ring of directories below itself with a file in it, and one through the root.
fn rings() -> Tree {
    Tree {
        objects: &[
            (2, 1, FOLDER, 0),
            (3, 1, FOLDER, 0),
            (4, 1, FILE, 0),
            (5, 1, FOLDER, 0),
        ],
        names: &[
            (2, 1, 3, "a"),
            (3, 1, 2, "b"),
            (3, 2, 4, "f"),
            (1, 1, 5, "d"),
            (5, 1, 1, "r"),
        ],
    }
}

/// A name in a file, and one whose object is missing.
fn in_a_file() -> Tree {
    Tree {
        objects: &[(2, 1, FILE, 0), (3, 1, FILE, 0)],
        names: &[(1, 1, 2, "f"), (2, 1, 3, "g"), (1, 2, 57, "q")],
    }
}

/// Whether these are the objects of a tree that no names lead to, in order.
fn are_unreached(
    rt: &(impl Abort + AllocGlobal),
    tree: Tree,
    wanted: &[u32],
    about: &'static str,
) -> Result<(), Fail> {
    let image = image_of::<LittleEndian>(rt.alloc(), tree)?;
    let mounted = mount::<LittleEndian>(rt.alloc(), &image, GEOMETRY)?;
    let numbers = unreached(rt.alloc(), &mounted)?;
    let mut found = Vec::new(rt.alloc());
    for number in &numbers {
        found.push(*number)?;
    }
    equal_at(rt, found.as_slice(), wanted, about);
    Ok(())
}

#[test]
fn objects_without_names_are_found(rt: HostRuntime) -> Result<(), Fail> {
    are_unreached(&rt, empty(), &[], "no bytes at all")?;
    are_unreached(&rt, linked(), &[], "two names of a file")?;
    are_unreached(&rt, removed(), &[2, 3], "a name that was removed")?;
    are_unreached(&rt, rings(), &[2, 3, 4], "a ring below itself")?;
    are_unreached(&rt, in_a_file(), &[3], "a name in a file")
}
