//! The directories that first names are in, and objects with several names.

use crate::checks::equal_at;
use crate::mount::facts::{Fact, first_wrong};
use crate::mount::images::{DIRECTORY, FILE, Item, Version};
use byteorder::LittleEndian;
use std::test::Fail;

const FILE_TWO: Item = Item::Data(Version(2, 1, FILE, 3), 0, b"abc");

const DIRECTORY_SIX: Item = Item::Data(Version(6, 1, DIRECTORY, 0), 0, b"");

const DIRECTORY_NINE: Item = Item::Data(Version(9, 1, DIRECTORY, 0), 0, b"");

/// A file with names in two directories, of which the one of lower number is in the other.
fn tree() -> &'static [Item] {
    &[
        FILE_TWO,
        DIRECTORY_SIX,
        DIRECTORY_NINE,
        Item::Entry(1, 1, 9, b"a"),
        Item::Entry(9, 1, 2, b"b"),
        Item::Entry(9, 2, 6, b"c"),
        Item::Entry(6, 1, 2, b"d"),
    ]
}

fn of_tree() -> &'static [Fact] {
    &[
        Fact::FirstDirectory(0, None),
        Fact::FirstDirectory(1, None),
        Fact::FirstDirectory(2, Some(6)),
        Fact::FirstDirectory(6, Some(9)),
        Fact::FirstDirectory(9, Some(1)),
        Fact::FirstDirectory(u32::MAX, None),
        Fact::SeveralNames(1, false),
        Fact::SeveralNames(2, true),
        Fact::SeveralNames(6, false),
        Fact::SeveralNames(9, false),
    ]
}

/// Names of a missing object, in missing objects, and of the root; a first name that was removed,
/// and one before and after which others come.
fn odd_tree() -> &'static [Item] {
    &[
        FILE_TWO,
        DIRECTORY_SIX,
        DIRECTORY_NINE,
        Item::Entry(1, 1, 3, b"a"),
        Item::Entry(57, 1, 2, b"a"),
        Item::Entry(9, 1, 6, b"z"),
        Item::Entry(1, 2, 6, b"b"),
        Item::Entry(58, 1, 6, b"a"),
        Item::Entry(1, 3, 0, b"b"),
        Item::Entry(9, 2, 1, b"r"),
        Item::Entry(6, 1, 1, b"r"),
    ]
}

fn of_odd_tree() -> &'static [Fact] {
    &[
        Fact::FirstDirectory(0, None),
        Fact::FirstDirectory(1, Some(6)),
        Fact::FirstDirectory(2, Some(57)),
        Fact::FirstDirectory(3, None),
        Fact::FirstDirectory(6, Some(9)),
        Fact::FirstDirectory(9, None),
        Fact::FirstDirectory(57, None),
        Fact::SeveralNames(1, true),
        Fact::SeveralNames(2, false),
        Fact::SeveralNames(6, true),
        Fact::SeveralNames(9, false),
    ]
}

/// Two names in one directory; names of which one was removed, or stands for another object since.
fn twin_tree() -> &'static [Item] {
    &[
        FILE_TWO,
        DIRECTORY_SIX,
        DIRECTORY_NINE,
        Item::Entry(1, 1, 2, b"a"),
        Item::Entry(1, 2, 2, b"b"),
        Item::Entry(1, 3, 6, b"c"),
        Item::Entry(1, 4, 6, b"d"),
        Item::Entry(1, 5, 0, b"c"),
        Item::Entry(1, 6, 9, b"e"),
        Item::Entry(1, 7, 9, b"f"),
        Item::Entry(1, 8, 6, b"f"),
    ]
}

fn of_twin_tree() -> &'static [Fact] {
    &[
        Fact::FirstDirectory(2, Some(1)),
        Fact::SeveralNames(1, false),
        Fact::SeveralNames(2, true),
        Fact::SeveralNames(6, true),
        Fact::SeveralNames(9, false),
    ]
}

fn no_nodes() -> &'static [Item] {
    &[]
}

/// What has no name, and what is not there.
fn of_no_nodes() -> &'static [Fact] {
    &[Fact::FirstDirectory(1, None), Fact::FirstDirectory(2, None)]
}

#[test]
fn first_names_have_their_directories(rt: HostRuntime) -> Result<(), Fail> {
    for (about, items, facts) in [
        ("a tree", tree(), of_tree()),
        ("no nodes", no_nodes(), of_no_nodes()),
        (
            "names that others would not have",
            odd_tree(),
            of_odd_tree(),
        ),
        ("names beside each other", twin_tree(), of_twin_tree()),
    ] {
        let wrong = first_wrong::<LittleEndian>(rt.alloc(), items, facts)?;
        equal_at(&rt, wrong, None, about);
    }
    Ok(())
}
