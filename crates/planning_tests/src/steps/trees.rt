//! Small file systems, as the nodes of an image.

use byteorder::LittleEndian;
use jmount::mount;
use jscan::Geometry;
use jsteps::Index;
use std::alloc::Global;
use std::test::Fail;
use test_support::{Tree, image_of};

pub const GEOMETRY: Geometry = Geometry { block: 4096 };

pub const FILE: u32 = 0o100644;

pub const DIRECTORY: u32 = 0o040755;

/// Directories four deep, a file of ten bytes, a symlink, a device, and names of numbers that have
/// no object.
pub fn small() -> Tree {
    Tree {
        objects: &[
            (2, 1, FILE, 10),
            (3, 1, DIRECTORY, 0),
            (4, 1, DIRECTORY, 0),
            (5, 1, FILE, 0),
            (6, 1, DIRECTORY, 0),
            (7, 1, 0o120777, 3),
            (8, 1, 0o020600, 0),
            (9, 1, DIRECTORY, 0),
            (10, 1, DIRECTORY, 0),
            (11, 1, DIRECTORY, 0),
        ],
        names: &[
            (1, 1, 2, "a"),
            (1, 2, 3, "d"),
            (3, 1, 4, "e"),
            (3, 2, 5, "f"),
            (4, 1, 6, "g"),
            (6, 1, 11, "i"),
            (1, 3, 7, "s"),
            (1, 4, 8, "c"),
            (1, 5, 9, "h"),
            (9, 1, 57, "x"),
            (1, 6, 10, "n"),
            (1, 7, 57, "q"),
        ],
    }
}

/// An object of each other kind.
pub fn kinds() -> Tree {
    Tree {
        objects: &[
            (2, 1, 0o010644, 0),
            (3, 1, 0o140755, 0),
            (4, 1, 0o060600, 2),
            (5, 1, 0o020600, 2),
            (6, 1, 0o120777, 3),
            (7, 1, 0o150644, 0),
        ],
        names: &[
            (1, 1, 2, "p"),
            (1, 2, 3, "s"),
            (1, 3, 4, "b"),
            (1, 4, 5, "c"),
            (1, 5, 6, "l"),
            (1, 6, 7, "o"),
        ],
    }
}

/// A name without an object, and nothing else.
pub fn dangling() -> Tree {
    Tree {
        objects: &[],
        names: &[(1, 1, 57, "q")],
    }
}

/// A directory with a further name for the root, and a file.
pub fn looped() -> Tree {
    Tree {
        objects: &[(2, 1, DIRECTORY, 0), (3, 1, FILE, 0)],
        names: &[(1, 1, 2, "d"), (2, 1, 1, "r"), (1, 2, 3, "f")],
    }
}

/// The root and a file have the greatest version, and no number is free.
pub fn spent() -> Tree {
    Tree {
        objects: &[(2, 4_294_967_295, FILE, 10), (3, 1, DIRECTORY, 0)],
        names: &[
            (1, 1, 2, "a"),
            (1, 2, 3, "d"),
            (3, 1, 5, "x"),
            (1, 4_294_967_295, 4_294_967_295, "z"),
        ],
    }
}

/// The root and a file have one version left, a directory and another file two.
pub fn almost_spent() -> Tree {
    Tree {
        objects: &[
            (2, 4_294_967_294, FILE, 10),
            (3, 4_294_967_293, FILE, 10),
            (4, 1, DIRECTORY, 0),
            (5, 4_294_967_293, DIRECTORY, 0),
        ],
        names: &[
            (1, 1, 2, "a"),
            (1, 2, 3, "b"),
            (1, 3, 4, "d"),
            (1, 4, 5, "e"),
            (1, 4_294_967_294, 0, "x"),
            (5, 1, 2, "m"),
        ],
    }
}

/// The greatest number but one is in use.
pub fn one_number_left() -> Tree {
    Tree {
        objects: &[],
        names: &[(1, 1, 4_294_967_294, "z")],
    }
}

/// The index of a tree.
pub fn index_of(alloc: Global, tree: Tree) -> Result<Index, Fail> {
    let image = image_of::<LittleEndian>(alloc, tree)?;
    let mounted = mount::<LittleEndian>(alloc, &image, GEOMETRY)?;
    Ok(Index::of(alloc, &mounted)?)
}
