//! Images that do not mount, and one that is near to them.

use crate::checks::equal_at;
use crate::mount::images::{DIRECTORY, FILE, Item, Version, image_of};
use byteorder::LittleEndian;
use jmount::{MountFault, mount};
use jscan::Geometry;
use std::alloc::Global;
use std::process::Abort;
use std::test::Fail;

/// A header of the unknown type 0xe0f7, which may not be skipped.
const INCOMPATIBLE: Item = Item::Raw(&[
    0x85, 0x19, 0xf7, 0xe0, 0x0c, 0x00, 0x00, 0x00, 0x65, 0x03, 0x08, 0x83,
]);

/// An inode node whose data are compressed by method 7.
const COMPRESSED: Item = Item::Raw(&[
    0x85, 0x19, 0x02, 0xe0, 0x48, 0x00, 0x00, 0x00, 0xa5, 0x44, 0x21, 0xd2, 0x02, 0x00, 0x00, 0x00,
    0x03, 0x00, 0x00, 0x00, 0xa4, 0x81, 0x00, 0x00, 0x00, 0x00, 0x00, 0x00, 0x08, 0x00, 0x00, 0x00,
    0x00, 0x00, 0x00, 0x00, 0x00, 0x00, 0x00, 0x00, 0x00, 0x00, 0x00, 0x00, 0x00, 0x00, 0x00, 0x00,
    0x04, 0x00, 0x00, 0x00, 0x08, 0x00, 0x00, 0x00, 0x07, 0x07, 0x00, 0x00, 0xd1, 0x24, 0x78, 0x97,
    0x72, 0x9a, 0xfb, 0x8e, 0x01, 0x02, 0x03, 0x04,
]);

const MADE: Item = Item::Data(Version(2, 1, FILE, 0), 0, b"");

/// Contradicts it.
const MADE_ELSE: Item = Item::Data(Version(2, 1, 0o100600, 0), 0, b"");

/// What an image is, its block size, its items, and why it does not mount.
type Image = (&'static str, u32, &'static [Item], Option<MountFault>);

/// Nodes of one version clash where they differ.
fn clashes() -> &'static [Image] {
    &[
        (
            "in the mode",
            4096,
            &[Item::Marker, MADE, MADE_ELSE],
            Some(MountFault::Clash { addr: 0x50 }),
        ),
        (
            "in the data",
            4096,
            &[
                Item::Marker,
                Item::Data(Version(2, 2, FILE, 2), 0, b"ab"),
                Item::Data(Version(2, 2, FILE, 2), 0, b"ac"),
            ],
            Some(MountFault::Clash { addr: 0x54 }),
        ),
        (
            "in the number that a name stands for",
            4096,
            &[
                Item::Marker,
                Item::Entry(1, 1, 2, b"q"),
                Item::Entry(1, 1, 0, b"q"),
            ],
            Some(MountFault::Clash { addr: 0x38 }),
        ),
    ]
}

/// So it is where names come in no order.
fn names_in_no_order() -> &'static [Image] {
    &[
        (
            "entries clash",
            4096,
            &[
                Item::Marker,
                Item::Entry(1, 1, 2, b"q"),
                Item::Entry(1, 1, 0, b"q"),
                Item::Entry(1, 2, 3, b"a"),
            ],
            Some(MountFault::Clash { addr: 0x38 }),
        ),
        (
            "inode nodes clash",
            4096,
            &[
                Item::Marker,
                Item::Entry(1, 1, 2, b"q"),
                Item::Entry(1, 2, 3, b"a"),
                MADE,
                MADE_ELSE,
            ],
            Some(MountFault::Clash { addr: 0xA8 }),
        ),
        (
            "both clash, the inode nodes first",
            4096,
            &[
                Item::Marker,
                Item::Entry(1, 1, 2, b"q"),
                Item::Entry(1, 2, 3, b"a"),
                MADE,
                MADE_ELSE,
                Item::Entry(1, 1, 0, b"q"),
            ],
            Some(MountFault::Clash { addr: 0xA8 }),
        ),
    ]
}

/// The fault of least address is answered.
fn first_faults() -> &'static [Image] {
    &[
        (
            "a node that may not be skipped before one that clashes",
            4096,
            &[Item::Marker, MADE, INCOMPATIBLE, Item::Marker, MADE_ELSE],
            Some(MountFault::Incompatible {
                addr: 0x50,
                nodetype: 0xE0F7,
            }),
        ),
        (
            "a node that clashes before one that may not be skipped",
            4096,
            &[Item::Marker, MADE, MADE_ELSE, INCOMPATIBLE],
            Some(MountFault::Clash { addr: 0x50 }),
        ),
        (
            "a compressed node before one that may not be skipped",
            4096,
            &[Item::Marker, COMPRESSED, INCOMPATIBLE],
            Some(MountFault::Compressed { addr: 12, compr: 7 }),
        ),
    ]
}

/// The root is a directory, and the block size is judged first. Other names, and an inode node, of
/// one version do not clash.
fn others() -> &'static [Image] {
    &[
        (
            "two names and an inode node of one version",
            4096,
            &[
                Item::Marker,
                Item::Entry(1, 1, 2, b"q"),
                Item::Entry(1, 1, 3, b"r"),
                Item::Data(Version(1, 1, DIRECTORY, 0), 0, b""),
            ],
            None,
        ),
        (
            "a root that is a file",
            4096,
            &[Item::Marker, Item::Data(Version(1, 1, FILE, 0), 0, b"")],
            Some(MountFault::RootKind),
        ),
        (
            "the same in blocks of no size that is readable",
            4095,
            &[Item::Marker, Item::Data(Version(1, 1, FILE, 0), 0, b"")],
            Some(MountFault::BlockSize),
        ),
    ]
}

fn are_refused(rt: &impl Abort, alloc: Global, images: &[Image]) -> Result<(), Fail> {
    for &(about, block, items, wanted) in images {
        let image = image_of::<LittleEndian>(alloc, items)?;
        let fault = mount::<LittleEndian>(alloc, &image, Geometry { block }).err();
        equal_at(rt, fault, wanted, about);
    }
    Ok(())
}

#[test]
fn the_fault_of_least_address_is_answered(rt: HostRuntime) -> Result<(), Fail> {
    for images in [clashes(), names_in_no_order(), first_faults(), others()] {
        are_refused(&rt, rt.alloc(), images)?;
    }
    Ok(())
}
