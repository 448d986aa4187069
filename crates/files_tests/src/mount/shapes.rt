//! The shape of trees: second names of directories, and directories below themselves.

use crate::checks::equal_at;
use crate::mount::images::{DIRECTORY, FILE, Item, Version, image_of};
use byteorder::LittleEndian;
use jmount::mount;
use jscan::Geometry;
use std::process::Abort;
use std::test::Fail;

const GEOMETRY: Geometry = Geometry { block: 4096 };

// Directories, by their numbers.
const TWO: Item = Item::Data(Version(2, 1, DIRECTORY, 0), 0, b"");

const THREE: Item = Item::Data(Version(3, 1, DIRECTORY, 0), 0, b"");

const FOUR: Item = Item::Data(Version(4, 1, DIRECTORY, 0), 0, b"");

const FIVE: Item = Item::Data(Version(5, 1, DIRECTORY, 0), 0, b"");

/// What an image is, its items, and whether it has the shape of a tree.
type Shape = (&'static str, &'static [Item], bool);

fn trees() -> &'static [Shape] {
    &[
        ("no bytes at all", &[], true),
        ("a directory", &[TWO, Item::Entry(1, 1, 2, b"d")], true),
        ("one without a name", &[TWO], true),
        (
            "a chain",
            &[
                FIVE,
                TWO,
                FOUR,
                THREE,
                Item::Entry(1, 1, 5, b"a"),
                Item::Entry(5, 1, 2, b"b"),
                Item::Entry(2, 1, 4, b"c"),
                Item::Entry(4, 1, 3, b"d"),
            ],
            true,
        ),
        (
            "two names of a file",
            &[
                Item::Data(Version(2, 1, FILE, 0), 0, b""),
                Item::Entry(1, 1, 2, b"d"),
                Item::Entry(1, 2, 2, b"e"),
            ],
            true,
        ),
        (
            "two names of what is missing",
            &[Item::Entry(1, 1, 2, b"d"), Item::Entry(1, 2, 2, b"e")],
            true,
        ),
    ]
}

/// Directories with a second name, that stands or was removed.
fn second_names() -> &'static [Shape] {
    &[
        (
            "two names in one directory",
            &[TWO, Item::Entry(1, 1, 2, b"d"), Item::Entry(1, 2, 2, b"e")],
            false,
        ),
        (
            "one name in two directories",
            &[
                TWO,
                THREE,
                Item::Entry(1, 1, 2, b"d"),
                Item::Entry(1, 2, 3, b"e"),
                Item::Entry(3, 1, 2, b"d"),
            ],
            false,
        ),
        (
            "a second name below what is missing, where no walk leads",
            &[TWO, Item::Entry(1, 1, 2, b"d"), Item::Entry(57, 1, 2, b"d")],
            false,
        ),
        (
            "a second name that was removed",
            &[
                TWO,
                Item::Entry(1, 1, 2, b"d"),
                Item::Entry(1, 2, 2, b"e"),
                Item::Entry(1, 3, 0, b"e"),
            ],
            true,
        ),
    ]
}

/// Directories that lie in themselves.
fn rings() -> &'static [Shape] {
    &[
        (
            "a directory in itself",
            &[TWO, Item::Entry(2, 1, 2, b"d")],
            false,
        ),
        (
            "two directories in each other, away from the root",
            &[
                TWO,
                THREE,
                Item::Entry(2, 1, 3, b"a"),
                Item::Entry(3, 1, 2, b"b"),
            ],
            false,
        ),
    ]
}

/// The root with a name.
fn roots() -> &'static [Shape] {
    &[
        ("the root in itself", &[Item::Entry(1, 1, 1, b"r")], false),
        (
            "the root below itself",
            &[
                TWO,
                THREE,
                Item::Entry(1, 1, 2, b"a"),
                Item::Entry(2, 1, 3, b"b"),
                Item::Entry(3, 1, 1, b"r"),
            ],
            false,
        ),
        (
            "two names of the root, where no walk from it leads",
            &[
                TWO,
                THREE,
                Item::Entry(2, 1, 1, b"r"),
                Item::Entry(3, 1, 1, b"r"),
                Item::Entry(1, 1, 4, b"d"),
                FOUR,
            ],
            true,
        ),
        (
            "the root in a file",
            &[
                Item::Data(Version(2, 1, FILE, 0), 0, b""),
                Item::Entry(1, 1, 2, b"f"),
                Item::Entry(2, 1, 1, b"r"),
            ],
            true,
        ),
    ]
}

/// Whether images of these items have their shapes.
fn have_shapes(rt: &(impl Abort + AllocGlobal), shapes: &[Shape]) -> Result<(), Fail> {
    for &(about, items, wanted) in shapes {
        let image = image_of::<LittleEndian>(rt.alloc(), items)?;
        let mounted = mount::<LittleEndian>(rt.alloc(), &image, GEOMETRY)?;
        equal_at(rt, mounted.has_shape(), wanted, about);
        equal_at(rt, mounted.shape()?, wanted, about);
    }
    Ok(())
}

#[test]
fn trees_have_their_shape_or_not(rt: HostRuntime) -> Result<(), Fail> {
    have_shapes(&rt, trees())?;
    have_shapes(&rt, second_names())?;
    have_shapes(&rt, rings())?;
    have_shapes(&rt, roots())
}
