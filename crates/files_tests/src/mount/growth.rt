//! A growth that is refused is told as such.

use crate::checks::equal;
use crate::mount::images::{DIRECTORY, FILE, Item, Version, image_of};
use byteorder::LittleEndian;
use jmount::{MountFault, Mounted, mount};
use jscan::Geometry;
use std::alloc::Global;

const GEOMETRY: Geometry = Geometry { block: 4096 };

/// A directory of two names, a file of several pieces, versions and names, and names that dangle.
const ITEMS: &[Item] = &[
    Item::Data(Version(2, 1, DIRECTORY, 0), 0, b""),
    Item::Data(Version(3, 1, FILE, 4), 0, b"abcd"),
    Item::Data(Version(3, 2, FILE, 4), 1, b"BC"),
    Item::Data(Version(3, 3, FILE, 6), 5, b"e"),
    Item::Entry(1, 1, 2, b"d"),
    Item::Entry(2, 1, 9, b"x"),
    Item::Entry(2, 2, 3, b"a"),
    Item::Entry(2, 3, 3, b"x"),
    Item::Entry(1, 2, 57, b"q"),
    Item::Entry(1, 3, 58, b"r"),
    Item::Run(4, 0),
];

/// Whether the image shows all of it. Where the memory for the names that dangle is refused,
/// nothing changes.
fn is_shown(alloc: Global, mounted: &Mounted<'_>) -> bool {
    let dangling = mounted.dangling(alloc).or_else(|_| mounted.dangling(alloc));
    let mut bytes = [0; 8];
    mounted.find(b"/d/a") == Ok(3)
        && mounted.find(b"/d/x") == Ok(3)
        && mounted.read_at(3, 0, &mut bytes) == 6
        && bytes == *b"aBCd\0e\0\0"
        && mounted.first_directory(3) == Some(2)
        && mounted.has_several_names(3)
        && mounted.next() == 59
        && mounted.findings().len() == 1
        && dangling.is_ok_and(|names| names.len() == 2)
}

/// Why an image is not mounted; none where it shows what it should.
fn fault(alloc: Global, image: &[u8]) -> Option<MountFault> {
    match mount::<LittleEndian>(alloc, image, GEOMETRY) {
        Ok(mounted) if is_shown(alloc, &mounted) => None,
        Ok(_) => Some(MountFault::BlockSize),
        Err(fault) => Some(fault),
    }
}

/// Two nodes of one number and version that contradict one another, and an entry.
const CLASHING: &[Item] = &[
    Item::Data(Version(2, 1, FILE, 0), 0, b""),
    Item::Entry(1, 1, 2, b"a"),
    Item::Data(Version(2, 1, DIRECTORY, 0), 0, b""),
];

/// Two entries of one name and version that contradict one another, and one between them that is
/// not in order.
const CLASHING_NAMES: &[Item] = &[
    Item::Data(Version(2, 1, FILE, 0), 0, b""),
    Item::Entry(1, 1, 2, b"b"),
    Item::Entry(1, 2, 2, b"a"),
    Item::Entry(1, 1, 3, b"b"),
];

/// Passes with each allocation failing in turn too: memory is then blamed, also of an image that
/// does not mount, and the same call answers as if there had been none before.
#[test]
fn refused_mounts_are_want_of_memory(rt: HostRuntime) {
    for (items, want) in [
        (ITEMS, None),
        (CLASHING, Some(MountFault::Clash { addr: 0x70 })),
        (CLASHING_NAMES, Some(MountFault::Clash { addr: 0x9C })),
    ] {
        let Ok(image) = image_of::<LittleEndian>(rt.alloc(), items) else {
            return;
        };
        let mut first = fault(rt.alloc(), &image);
        if first == Some(MountFault::OutOfMemory) {
            first = fault(rt.alloc(), &image);
        }
        equal(&rt, first, want);
    }
}

/// Directories in one another, and one that has the name `r` of a number, which may be its own.
const fn chain(last: u32) -> [Item; 7] {
    [
        Item::Data(Version(2, 1, DIRECTORY, 0), 0, b""),
        Item::Data(Version(3, 1, DIRECTORY, 0), 0, b""),
        Item::Data(Version(4, 1, DIRECTORY, 0), 0, b""),
        Item::Entry(1, 1, 2, b"a"),
        Item::Entry(2, 1, 3, b"b"),
        Item::Entry(5, 1, 4, b"c"),
        Item::Entry(4, 1, last, b"r"),
    ]
}

/// Whether the tree of an image has its shape; none where the image does not mount.
fn shape(alloc: Global, image: &[u8]) -> Option<bool> {
    match mount::<LittleEndian>(alloc, image, GEOMETRY) {
        Ok(mounted) => Some(mounted.has_shape()),
        Err(_fault) => None,
    }
}

/// Passes with each allocation failing in turn too: then the image does not mount, and mounted again
/// it is right.
#[test]
fn refused_shapes_are_no_answer(rt: HostRuntime) {
    for (last, want) in [(57, true), (4, false)] {
        let Ok(image) = image_of::<LittleEndian>(rt.alloc(), &chain(last)) else {
            return;
        };
        let mut first = shape(rt.alloc(), &image);
        if first.is_none() {
            first = shape(rt.alloc(), &image);
        }
        equal(&rt, first, Some(want));
    }
}
