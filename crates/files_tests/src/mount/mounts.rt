//! Small images, and what they mount as.

use crate::checks::{equal, equal_at};
use crate::mount::facts::{Fact, Live, Named, OfKind, first_wrong};
use crate::mount::images::{BLOCK, CHARACTER, DIRECTORY, FILE, Item, Version};
use byteorder::{BigEndian, LittleEndian};
use jmount::{DeviceBytes, FindFault, Kind, Object};
use std::alloc::Global;
use std::process::Abort;
use std::test::Fail;
use test_support::READ_ONLY;

const DEFAULT_ROOT: Object = Object {
    kind: Kind::Directory,
    mode: DIRECTORY,
    uid: 0,
    gid: 0,
    size: 0,
    atime: 0,
    mtime: 0,
    ctime: 0,
    device: None,
};

const CUT_AND_WRITTEN: Object = Object {
    kind: Kind::Regular,
    mode: FILE,
    uid: 1000,
    gid: 100,
    size: 9,
    atime: 7,
    mtime: 8,
    ctime: 9,
    device: None,
};

const ROOT_OF_VERSION_0: Object = Object {
    kind: Kind::Directory,
    mode: 0o040700,
    uid: 1000,
    gid: 100,
    size: 0,
    atime: 7,
    mtime: 8,
    ctime: 9,
    device: None,
};

/// `/dev/null`, as little images have it.
const OF_TWO_BYTES: Object = Object {
    kind: Kind::CharacterDevice,
    mode: CHARACTER,
    uid: 1000,
    gid: 100,
    size: 0,
    atime: 7,
    mtime: 8,
    ctime: 9,
    device: Some(DeviceBytes::Two([3, 1])),
};

const OF_FOUR_BYTES: Object = Object {
    kind: Kind::BlockDevice,
    mode: BLOCK,
    uid: 1000,
    gid: 100,
    size: 0,
    atime: 7,
    mtime: 8,
    ctime: 9,
    device: Some(DeviceBytes::Four([1, 2, 3, 4])),
};

const OF_TWO_ZEROS: Object = Object {
    kind: Kind::BlockDevice,
    mode: BLOCK,
    uid: 1000,
    gid: 100,
    size: 0,
    atime: 7,
    mtime: 8,
    ctime: 9,
    device: Some(DeviceBytes::Two([0, 0])),
};

const OF_NO_NUMBER: Object = Object {
    kind: Kind::BlockDevice,
    mode: BLOCK,
    uid: 1000,
    gid: 100,
    size: 0,
    atime: 7,
    mtime: 8,
    ctime: 9,
    device: None,
};

const FILE_OF_TWO_BYTES: Object = Object {
    kind: Kind::Regular,
    mode: FILE,
    uid: 1000,
    gid: 100,
    size: 2,
    atime: 7,
    mtime: 8,
    ctime: 9,
    device: None,
};

/// What is there before a node is written.
fn unwritten() -> &'static [Fact] {
    &[
        Fact::Find(b"/", Ok(1)),
        Fact::Object(1, Some(DEFAULT_ROOT)),
        Fact::Objects(&[OfKind(1, Kind::Directory)]),
        Fact::Names(&[]),
        Fact::Next(2),
        Fact::Top(1, 0),
        Fact::Findings(0),
        Fact::ReadOnly(false),
    ]
}

/// Written, cut, and written after the end: what was cut does not come back.
fn cut() -> &'static [Item] {
    &[
        Item::Marker,
        Item::Data(Version(2, 1, FILE, 0), 0, b""),
        Item::Data(
            Version(2, 2, FILE, 10),
            0,
            b"\x01\x02\x03\x04\x05\x06\x07\x08\x09\x0a",
        ),
        Item::Data(Version(2, 3, FILE, 4), 0, b""),
        Item::Zeros(Version(2, 4, FILE, 8), 4, 4),
        Item::Data(Version(2, 5, FILE, 9), 8, b"\xFF"),
        Item::Entry(1, 1, 2, b"a"),
    ]
}

fn of_cut() -> &'static [Fact] {
    &[
        Fact::Bytes(2, 0, 32, b"\x01\x02\x03\x04\0\0\0\0\xFF"),
        Fact::HoleEnd(2, 3, 3),
        Fact::HoleEnd(2, 4, 8),
        Fact::HoleEnd(2, 8, 8),
        Fact::HoleEnd(2, 9, 9),
        Fact::HoleEnd(1, 4, 4),
        Fact::HoleEnd(3, 5, 5),
        Fact::Find(b"/a", Ok(2)),
        Fact::Object(2, Some(CUT_AND_WRITTEN)),
        Fact::Entries(1, &[Named(b"a", 2)]),
        Fact::Top(2, 5),
        Fact::Top(1, 1),
        Fact::Next(3),
    ]
}

/// Versions decide, and not addresses.
fn out_of_order() -> &'static [Item] {
    &[
        Item::Marker,
        Item::Data(Version(2, 3, FILE, 6), 4, b"EF"),
        Item::Data(Version(2, 1, FILE, 9), 0, b"abcdefghi"),
        Item::Data(Version(2, 2, FILE, 3), 1, b"BC"),
    ]
}

fn of_out_of_order() -> &'static [Fact] {
    &[Fact::Bytes(2, 0, 32, b"aBCdEF")]
}

/// Of a size that no node reaches, and with a gap between its nodes.
fn gaps() -> &'static [Item] {
    &[
        Item::Marker,
        Item::Data(Version(2, 1, FILE, 9), 2, b"c"),
        Item::Data(Version(2, 2, FILE, 0x9000_0000), 5, b"f"),
    ]
}

fn of_gaps() -> &'static [Fact] {
    &[
        Fact::HoleEnd(2, 0, 2),
        Fact::HoleEnd(2, 2, 2),
        Fact::HoleEnd(2, 3, 5),
        Fact::HoleEnd(2, 6, 0x9000_0000),
    ]
}

/// Zeros that a node has as bytes: they are passed over too, 64 at once.
fn zero_bytes() -> &'static [Item] {
    &[
        Item::Marker,
        Item::Data(Version(2, 1, FILE, 77), 0, &[0; 70]),
        Item::Data(Version(2, 2, FILE, 77), 70, b"\0\0a\0\0"),
    ]
}

fn of_zero_bytes() -> &'static [Fact] {
    &[
        Fact::HoleEnd(2, 0, 64),
        Fact::HoleEnd(2, 64, 72),
        Fact::HoleEnd(2, 71, 72),
        Fact::HoleEnd(2, 72, 72),
        Fact::HoleEnd(2, 73, 77),
        Fact::HoleEnd(2, 77, 77),
    ]
}

/// Twins that are equal are one node.
fn twins() -> &'static [Item] {
    &[
        Item::Marker,
        Item::Data(Version(2, 1, FILE, 0), 0, b""),
        Item::Data(Version(2, 1, FILE, 0), 0, b""),
    ]
}

fn of_twins() -> &'static [Fact] {
    &[Fact::Objects(&[OfKind(1, Kind::Directory), OfKind(2, Kind::Regular)])]
}

/// Names that stand for nothing: one whose object is missing, and one that was removed.
fn dangling() -> &'static [Item] {
    &[
        Item::Marker,
        Item::Entry(1, 1, 57, b"q"),
        Item::Entry(1, 1, 2, b"r"),
        Item::Entry(1, 2, 0, b"r"),
        Item::Data(Version(2, 1, FILE, 0), 0, b""),
    ]
}

fn of_dangling() -> &'static [Fact] {
    &[
        Fact::Find(b"/q", Err(FindFault::NotFound)),
        Fact::Find(b"/r", Err(FindFault::NotFound)),
        Fact::Next(58),
        Fact::Top(1, 2),
        Fact::Dangling(&[Live(1, b"q", 57)]),
    ]
}

/// A root of version 0.
fn root() -> &'static [Item] {
    &[Item::Marker, Item::Data(Version(1, 0, 0o040700, 0), 0, b"")]
}

fn of_root() -> &'static [Fact] {
    &[Fact::Object(1, Some(ROOT_OF_VERSION_0)), Fact::Top(1, 0)]
}

/// Devices: of two versions, the newer first, of four bytes, of a ZERO node, and of three bytes,
/// which are no number; and a file of two bytes.
fn devices() -> &'static [Item] {
    &[
        Item::Marker,
        Item::Data(Version(2, 2, CHARACTER, 0), 0, b"\x03\x01"),
        Item::Data(Version(2, 1, CHARACTER, 0), 0, b"\x05\x01"),
        Item::Data(Version(3, 1, BLOCK, 0), 0, b"\x01\x02\x03\x04"),
        Item::Zeros(Version(4, 1, BLOCK, 0), 0, 2),
        Item::Data(Version(5, 1, BLOCK, 0), 0, b"\x01\x02\x03"),
        Item::Data(Version(6, 1, FILE, 2), 0, b"\x03\x01"),
    ]
}

fn of_devices() -> &'static [Fact] {
    &[
        Fact::Object(2, Some(OF_TWO_BYTES)),
        Fact::Object(3, Some(OF_FOUR_BYTES)),
        Fact::Object(4, Some(OF_TWO_ZEROS)),
        Fact::Object(5, Some(OF_NO_NUMBER)),
        Fact::Object(6, Some(FILE_OF_TWO_BYTES)),
        Fact::Bytes(2, 0, 32, b""),
        Fact::Bytes(6, 0, 32, b"\x03\x01"),
    ]
}

fn mounts_in_either_order(
    rt: &impl Abort,
    alloc: Global,
    about: &str,
    items: &[Item],
    facts: &[Fact],
) -> Result<(), Fail> {
    let little = first_wrong::<LittleEndian>(alloc, items, facts)?;
    let big = first_wrong::<BigEndian>(alloc, items, facts)?;
    equal_at(rt, (little, big), (None, None), about);
    Ok(())
}

#[test]
fn images_mount_in_either_order(rt: HostRuntime) -> Result<(), Fail> {
    let erased: &[Item] = &[Item::Run(4096, 0xFF)];
    for (about, items, facts) in [
        ("no bytes at all", [].as_slice(), unwritten()),
        ("an erased block", erased, unwritten()),
        ("written, cut, and written after the end", cut(), of_cut()),
        (
            "versions decide, and not addresses",
            out_of_order(),
            of_out_of_order(),
        ),
        ("a size that no node reaches, and a gap", gaps(), of_gaps()),
        ("zeros that a node has", zero_bytes(), of_zero_bytes()),
        ("twins that are equal", twins(), of_twins()),
        ("names that stand for nothing", dangling(), of_dangling()),
        ("a root of version 0", root(), of_root()),
        ("the numbers of devices", devices(), of_devices()),
    ] {
        mounts_in_either_order(&rt, rt.alloc(), about, items, facts)?;
    }
    Ok(())
}

/// Headers of an attribute, a summary, an obsolete node of an unknown type, and an inode node of
/// 109 bytes whose data are an entry's and whose data_crc is wrong.
const OTHERS: [u8; 148] = [
    0x85, 0x19, 0x08, 0xe0, 0x0c, 0x00, 0x00, 0x00, 0xa9, 0xa8, 0xcc, 0x67, 0x85, 0x19, 0x06, 0x20,
    0x0c, 0x00, 0x00, 0x00, 0x02, 0x21, 0xd3, 0xb4, 0x85, 0x19, 0xf7, 0xc0, 0x0c, 0x00, 0x00, 0x00,
    0x65, 0x03, 0x08, 0x83, 0x85, 0x19, 0x02, 0xe0, 0x6d, 0x00, 0x00, 0x00, 0xa9, 0x1b, 0xcd, 0x45,
    0x02, 0x00, 0x00, 0x00, 0x02, 0x00, 0x00, 0x00, 0xa4, 0x81, 0x00, 0x00, 0x00, 0x00, 0x00, 0x00,
    0x29, 0x00, 0x00, 0x00, 0x00, 0x00, 0x00, 0x00, 0x00, 0x00, 0x00, 0x00, 0x00, 0x00, 0x00, 0x00,
    0x00, 0x00, 0x00, 0x00, 0x29, 0x00, 0x00, 0x00, 0x29, 0x00, 0x00, 0x00, 0x00, 0x00, 0x00, 0x00,
    0x00, 0x00, 0x00, 0x00, 0x8a, 0xec, 0x61, 0x44, 0x85, 0x19, 0x01, 0xe0, 0x29, 0x00, 0x00, 0x00,
    0x6d, 0xa6, 0x2f, 0xd7, 0x01, 0x00, 0x00, 0x00, 0x01, 0x00, 0x00, 0x00, 0x02, 0x00, 0x00, 0x00,
    0x00, 0x00, 0x00, 0x00, 0x01, 0x08, 0x00, 0x00, 0x95, 0x02, 0x9b, 0x91, 0xce, 0x51, 0xb5, 0x3a,
    0x61, 0xff, 0xff, 0xff,
];

/// The name of the first entry has another first byte, and zeros are dirt.
fn dirt() -> &'static [Item] {
    &[
        Item::Marker,
        Item::Data(Version(2, 1, FILE, 0), 0, b""),
        Item::Entry(1, 1, 2, b"a"),
        Item::Turned(12 + 68 + 40, b'b'),
        Item::Raw(&READ_ONLY),
        Item::Run(4, 0),
        Item::Marker,
        Item::Entry(1, 3, 2, b"c"),
    ]
}

fn of_dirt() -> &'static [Fact] {
    &[
        Fact::ReadOnly(true),
        Fact::Findings(3),
        Fact::Find(b"/a", Err(FindFault::NotFound)),
        Fact::Find(b"/c", Ok(2)),
    ]
}

/// Found are the attribute and the damaged node.
fn of_others() -> &'static [Fact] {
    &[
        Fact::Findings(2),
        Fact::ReadOnly(false),
        Fact::Names(&[]),
        Fact::Object(2, None),
        Fact::Next(2),
    ]
}

#[test]
fn what_is_no_node_makes_nothing(rt: HostRuntime) -> Result<(), Fail> {
    let wrong = first_wrong::<LittleEndian>(rt.alloc(), dirt(), of_dirt())?;
    equal(&rt, wrong, None);
    Ok(())
}

#[test]
fn what_is_skipped_or_damaged_makes_nothing(rt: HostRuntime) -> Result<(), Fail> {
    let wrong = first_wrong::<LittleEndian>(rt.alloc(), &[Item::Raw(&OTHERS)], of_others())?;
    equal(&rt, wrong, None);
    Ok(())
}
