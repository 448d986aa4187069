//! Every call on one file system: `/d` (2), which holds `x`, the root again, and `f` (3), `g` (4)
//! and `s` (5); in the root `q`, which stands for the missing 57, and `gone`, which was removed;
//! and a FIFO (9) that no name stands for. Object 8 has a hundred bytes, in three versions.

use crate::checks::equal_at;
use crate::mount::facts::{Fact, Live, Named, OfKind, first_wrong};
use crate::mount::images::{DIRECTORY, FILE, Item, Version};
use byteorder::LittleEndian;
use jmount::{FindFault, Kind, Object};
use std::test::Fail;

const SYMLINK: u32 = 0o120777;

const FIFO: u32 = 0o010600;

fn items() -> &'static [Item] {
    &[
        Item::Marker,
        Item::Data(Version(9, 3, FIFO, 0), 0, b""),
        Item::Data(Version(2, 11, DIRECTORY, 0), 0, b""),
        Item::Data(Version(3, 2, FILE, 8), 2, b"LL"),
        Item::Data(Version(3, 1, FILE, 8), 0, b"hello"),
        Item::Data(Version(3, 4, FILE, 8), 0, b""),
        Item::Data(Version(4, 2, FILE, 3), 2, b"LL"),
        Item::Data(Version(4, 1, FILE, 3), 0, b"hello"),
        Item::Data(Version(4, 4, FILE, 3), 0, b""),
        Item::Data(Version(5, 2, SYMLINK, 5), 2, b"LL"),
        Item::Data(Version(5, 1, SYMLINK, 5), 0, b"hello"),
        Item::Data(Version(5, 4, SYMLINK, 5), 0, b""),
        Item::Data(Version(1, 0, DIRECTORY, 0), 0, b""),
        Item::Entry(1, 1, 2, b"d"),
        Item::Entry(1, 2, 57, b"q"),
        Item::Entry(1, 3, 6, b"gone"),
        Item::Entry(1, 12, 0, b"gone"),
        Item::Entry(2, 1, 1, b"x"),
        Item::Entry(2, 2, 3, b"f"),
        Item::Entry(2, 3, 4, b"g"),
        Item::Entry(2, 4, 5, b"s"),
        Item::Data(Version(8, 3, FILE, 100), 0, &[b'3'; 10]),
        Item::Data(Version(8, 2, FILE, 100), 50, &[b'2'; 10]),
        Item::Data(Version(8, 1, FILE, 100), 0, &[b'1'; 100]),
    ]
}

/// Paths of objects.
fn paths() -> &'static [Fact] {
    &[
        Fact::Find(b"/", Ok(1)),
        Fact::Find(b"/d", Ok(2)),
        Fact::Find(b"/d/f", Ok(3)),
        Fact::Find(b"/d/x/d/x", Ok(1)),
        Fact::Find(b"/d/x/d/s", Ok(5)),
    ]
}

/// Texts that are no paths.
fn texts() -> &'static [Fact] {
    &[
        Fact::Find(b"", Err(FindFault::BadPath)),
        Fact::Find(b"d", Err(FindFault::BadPath)),
        Fact::Find(b"d/f", Err(FindFault::BadPath)),
        Fact::Find(b"//", Err(FindFault::BadPath)),
        Fact::Find(b"/d/", Err(FindFault::BadPath)),
        Fact::Find(b"//d", Err(FindFault::BadPath)),
        Fact::Find(b"/.", Err(FindFault::BadPath)),
        Fact::Find(b"/d/..", Err(FindFault::BadPath)),
        Fact::Find(b"/d\0", Err(FindFault::BadPath)),
        Fact::Find(b"/no//", Err(FindFault::BadPath)),
        Fact::Find(b"/q/.", Err(FindFault::BadPath)),
        Fact::Find(b"\0", Err(FindFault::BadPath)),
    ]
}

/// Paths of nothing: the first fault counts.
fn faults() -> &'static [Fact] {
    &[
        Fact::Find(b"/no", Err(FindFault::NotFound)),
        Fact::Find(b"/q", Err(FindFault::NotFound)),
        Fact::Find(b"/gone", Err(FindFault::NotFound)),
        Fact::Find(b"/d/...", Err(FindFault::NotFound)),
        Fact::Find(b"/q/f", Err(FindFault::NotFound)),
        Fact::Find(b"/D", Err(FindFault::NotFound)),
        Fact::Find(b"/d/d", Err(FindFault::NotFound)),
        Fact::Find(b"/d/f/x", Err(FindFault::NotDirectory)),
        Fact::Find(b"/d/s/x", Err(FindFault::NotDirectory)),
        Fact::Find(b"/d/f/no/x", Err(FindFault::NotDirectory)),
    ]
}

const OBJECT_3: Object = Object {
    kind: Kind::Regular,
    mode: FILE,
    uid: 1000,
    gid: 100,
    size: 8,
    atime: 7,
    mtime: 8,
    ctime: 9,
    device: None,
};

fn objects() -> &'static [Fact] {
    &[
        Fact::Object(3, Some(OBJECT_3)),
        Fact::Object(57, None),
        Fact::Objects(&[
            OfKind(1, Kind::Directory),
            OfKind(2, Kind::Directory),
            OfKind(3, Kind::Regular),
            OfKind(4, Kind::Regular),
            OfKind(5, Kind::Symlink),
            OfKind(8, Kind::Regular),
            OfKind(9, Kind::Fifo),
        ]),
    ]
}

fn names() -> &'static [Fact] {
    &[
        Fact::Entries(1, &[Named(b"d", 2), Named(b"q", 57)]),
        Fact::Entries(3, &[]),
        Fact::Names(&[
            Live(1, b"d", 2),
            Live(1, b"q", 57),
            Live(2, b"f", 3),
            Live(2, b"g", 4),
            Live(2, b"s", 5),
            Live(2, b"x", 1),
        ]),
        Fact::Dangling(&[Live(1, b"q", 57)]),
        Fact::FirstDirectory(1, Some(2)),
        Fact::FirstDirectory(2, Some(1)),
        Fact::FirstDirectory(57, None),
        Fact::FirstDirectory(8, None),
    ]
}

/// Bytes that are read, and bytes that are not.
fn bytes() -> &'static [Fact] {
    &[
        Fact::Bytes(3, 0, 4, b"heLL"),
        Fact::Bytes(3, 1, 4, b"eLLo"),
        Fact::Bytes(3, 4, 4, b"o\0\0\0"),
        Fact::Bytes(3, 6, 4, b"\0\0"),
        Fact::Bytes(3, 8, 4, b""),
        Fact::Bytes(3, 0xFFFF_FFFF_FFFF_FFFF, 4, b""),
        Fact::Bytes(3, 0, 0, b""),
        Fact::Bytes(4, 0, 4, b"heL"),
        Fact::Bytes(5, 3, 4, b"Lo"),
        Fact::Bytes(2, 0, 4, b""),
        Fact::Bytes(9, 0, 4, b""),
        Fact::Bytes(57, 0, 4, b""),
        Fact::Bytes(
            8,
            0,
            101,
            b"3333333333\
              1111111111111111111111111111111111111111\
              2222222222\
              1111111111111111111111111111111111111111",
        ),
    ]
}

/// Versions and numbers go on.
fn numbers() -> &'static [Fact] {
    &[
        Fact::Top(1, 12),
        Fact::Top(2, 11),
        Fact::Top(3, 4),
        Fact::Top(9, 3),
        Fact::Top(57, 0),
        Fact::Top(6, 0),
        Fact::Next(58),
        Fact::Findings(0),
        Fact::ReadOnly(false),
    ]
}

#[test]
fn every_call_on_one_file_system(rt: HostRuntime) -> Result<(), Fail> {
    let alloc = rt.alloc();
    for (about, facts) in [
        ("paths", paths()),
        ("texts", texts()),
        ("faults", faults()),
        ("objects", objects()),
        ("names", names()),
        ("bytes", bytes()),
        ("numbers", numbers()),
    ] {
        let wrong = first_wrong::<LittleEndian>(alloc, items(), facts)?;
        equal_at(&rt, wrong, None, about);
    }
    Ok(())
}
