//! The nodes that matter.

use crate::checks::equal_at;
use crate::compact::kept::Row::{Dropped, Kept};
use crate::mount::images::{DIRECTORY, FILE, Item, Version, image_of};
use byteorder::{BigEndian, LittleEndian};
use jcompact::kept_in;
use jmount::mount;
use jnode::{NodeRef, Order, WriteFault, write_entry, write_inode};
use jscan::Geometry;
use std::alloc::Global;
use std::process::Abort;
use std::test::Fail;
use test_support::fill_up;

pub(crate) const GEOMETRY: Geometry = Geometry { block: 4096 };

/// An item of an image: one that matters, with its address, or one that does not.
#[derive(Clone, Copy)]
enum Row {
    Kept(u32, Item),
    Dropped(Item),
}

/// What an image is about, and its items.
#[derive(Clone, Copy)]
struct Case(&'static str, &'static [Row]);

const A: Item = Item::Entry(1, 1, 2, b"a");

const NAMES: [Case; 7] = [
    Case("no bytes at all", &[]),
    Case(
        "a name that was removed, and what removed it",
        &[
            Dropped(A),
            Kept(44, Item::Entry(1, 2, 2, b"b")),
            Kept(88, Item::Data(Version(2, 1, FILE, 0), 0, b"")),
            Dropped(Item::Entry(1, 3, 0, b"a")),
        ],
    ),
    Case(
        "an entry that a newer one replaced, and its object",
        &[
            Kept(0, Item::Entry(1, 2, 3, b"a")),
            Dropped(A),
            Dropped(Item::Data(Version(2, 1, FILE, 0), 0, b"")),
            Kept(156, Item::Data(Version(3, 1, FILE, 0), 0, b"")),
        ],
    ),
    Case("no object", &[Dropped(Item::Entry(1, 1, 57, b"q"))]),
    Case(
        "two names of a file",
        &[
            Kept(0, A),
            Kept(44, Item::Data(Version(2, 1, FILE, 5), 0, b"")),
            Kept(112, Item::Entry(1, 2, 2, b"b")),
        ],
    ),
    Case(
        "a ring that names lead to, and one that none do",
        &[
            Dropped(Item::Data(Version(2, 1, DIRECTORY, 0), 0, b"")),
            Dropped(Item::Data(Version(3, 1, DIRECTORY, 0), 0, b"")),
            Dropped(Item::Entry(2, 1, 3, b"a")),
            Dropped(Item::Entry(3, 1, 2, b"b")),
            Dropped(Item::Data(Version(4, 1, FILE, 1), 0, b"f")),
            Dropped(Item::Entry(3, 2, 4, b"f")),
            Kept(340, Item::Entry(1, 1, 5, b"d")),
            Kept(384, Item::Data(Version(5, 1, DIRECTORY, 0), 0, b"")),
            Kept(452, Item::Entry(5, 1, 5, b"r")),
        ],
    ),
    Case(
        "a name in a file",
        &[
            Kept(0, Item::Data(Version(2, 1, FILE, 0), 0, b"")),
            Dropped(Item::Data(Version(3, 1, FILE, 0), 0, b"")),
            Kept(136, A),
            Dropped(Item::Entry(2, 1, 3, b"g")),
        ],
    ),
];

const BYTES: [Case; 10] = [
    Case(
        "each node twice",
        &[
            Dropped(Item::Data(Version(2, 1, FILE, 2), 0, b"ab")),
            Dropped(A),
            Kept(116, Item::Data(Version(2, 1, FILE, 2), 0, b"ab")),
            Kept(188, A),
        ],
    ),
    Case(
        "a version that a later one covers",
        &[
            Kept(0, A),
            Dropped(Item::Data(Version(2, 1, FILE, 3), 0, b"abc")),
            Kept(116, Item::Data(Version(2, 2, FILE, 3), 0, b"xyz")),
        ],
    ),
    Case(
        "its last byte shows",
        &[
            Kept(0, A),
            Kept(44, Item::Data(Version(2, 1, FILE, 3), 0, b"abc")),
            Kept(116, Item::Data(Version(2, 2, FILE, 3), 0, b"xy")),
        ],
    ),
    Case(
        "the first byte of another shows",
        &[
            Kept(0, A),
            Dropped(Item::Data(Version(2, 1, FILE, 2), 0, b"ab")),
            Kept(116, Item::Data(Version(2, 3, FILE, 2), 1, b"z")),
            Kept(188, Item::Data(Version(2, 2, FILE, 2), 0, b"cd")),
        ],
    ),
    Case(
        "bytes past the size, of the newest and of one before it",
        &[
            Kept(0, Item::Data(Version(2, 1, FILE, 2), 0, b"ab")),
            Dropped(Item::Data(Version(2, 2, FILE, 3), 1, b"yz")),
            Kept(144, Item::Data(Version(2, 3, FILE, 1), 1, b"w")),
            Kept(216, A),
        ],
    ),
    Case(
        "a file that was cut, and then written past a hole",
        &[
            Kept(0, Item::Data(Version(2, 1, FILE, 2), 0, b"ab")),
            Dropped(Item::Data(Version(2, 2, FILE, 1), 0, b"")),
            Kept(140, Item::Data(Version(2, 3, FILE, 8), 7, b"h")),
            Kept(212, A),
        ],
    ),
    Case(
        "attributes alone",
        &[
            Kept(0, A),
            Dropped(Item::Data(Version(2, 1, 0o100600, 4), 0, b"")),
            Kept(112, Item::Data(Version(2, 3, 0o100640, 4), 0, b"")),
            Dropped(Item::Data(Version(2, 2, 0o100644, 9), 0, b"")),
        ],
    ),
    Case(
        "zeros in the middle and in front",
        &[
            Kept(0, Item::Data(Version(2, 1, FILE, 4), 0, b"abcd")),
            Kept(72, Item::Zeros(Version(2, 2, FILE, 4), 1, 2)),
            Kept(140, Item::Zeros(Version(2, 3, FILE, 4), 0, 1)),
            Kept(208, A),
        ],
    ),
    Case(
        "the same places of two files",
        &[
            Kept(0, Item::Data(Version(2, 2, FILE, 2), 0, b"ab")),
            Kept(72, Item::Data(Version(3, 1, FILE, 2), 0, b"cd")),
            Kept(144, A),
            Kept(188, Item::Entry(1, 2, 3, b"b")),
        ],
    ),
    Case(
        "two versions of the root",
        &[
            Dropped(Item::Data(Version(1, 1, DIRECTORY, 0), 0, b"")),
            Kept(68, Item::Data(Version(1, 2, 0o040700, 0), 0, b"")),
        ],
    ),
];

/// The addresses of nodes, and what they are when they are written one after the other.
#[derive(Drop)]
pub(crate) struct Nodes {
    pub addresses: Vec<u32>,
    pub written: Vec<u8>,
}

fn append<E: Order>(image: &mut Vec<u8>, node: &NodeRef<'_>) -> Result<(), WriteFault> {
    match node {
        NodeRef::Entry(entry) => write_entry::<E>(image, entry)?,
        NodeRef::Inode(inode) => write_inode::<E>(image, inode)?,
    }
    fill_up(image).map_err(|_| WriteFault::OutOfMemory)
}

/// The nodes of an image that matter.
fn nodes_kept<E: Order>(alloc: Global, image: &[u8]) -> Result<Nodes, Fail> {
    let mounted = mount::<E>(alloc, image, GEOMETRY)?;
    let mut addresses = Vec::new(alloc);
    let mut written = Vec::new(alloc);
    for (addr, node) in &kept_in::<E>(alloc, &mounted, GEOMETRY)? {
        addresses.push(*addr)?;
        append::<E>(&mut written, node)?;
    }
    Ok(Nodes { addresses, written })
}

/// All items of a case.
fn items(alloc: Global, rows: &[Row]) -> Result<Vec<Item>, Fail> {
    let mut items = Vec::new(alloc);
    for row in rows {
        match *row {
            Kept(_, item) | Dropped(item) => items.push(item)?,
        }
    }
    Ok(items)
}

/// The nodes of a case that are to be kept.
fn wanted<E: Order>(alloc: Global, rows: &[Row]) -> Result<Nodes, Fail> {
    let mut addresses = Vec::new(alloc);
    let mut items = Vec::new(alloc);
    for row in rows {
        if let Kept(addr, item) = *row {
            addresses.push(addr)?;
            items.push(item)?;
        }
    }
    let written = image_of::<E>(alloc, &items)?;
    Ok(Nodes { addresses, written })
}

fn matter<E: Order>(rt: &(impl Abort + AllocGlobal), case: Case) -> Result<(), Fail> {
    let Case(about, rows) = case;
    let all = items(rt.alloc(), rows)?;
    let image = image_of::<E>(rt.alloc(), &all)?;
    let found = nodes_kept::<E>(rt.alloc(), &image)?;
    let wanted = wanted::<E>(rt.alloc(), rows)?;
    equal_at(
        rt,
        found.addresses.as_slice(),
        wanted.addresses.as_slice(),
        about,
    );
    equal_at(
        rt,
        found.written.as_slice(),
        wanted.written.as_slice(),
        about,
    );
    Ok(())
}

#[test]
fn names_that_count_matter(rt: HostRuntime) -> Result<(), Fail> {
    for case in NAMES.iter() {
        matter::<LittleEndian>(&rt, *case)?;
        matter::<BigEndian>(&rt, *case)?;
    }
    Ok(())
}

#[test]
fn nodes_that_show_bytes_matter(rt: HostRuntime) -> Result<(), Fail> {
    for case in BYTES.iter() {
        matter::<LittleEndian>(&rt, *case)?;
        matter::<BigEndian>(&rt, *case)?;
    }
    Ok(())
}

/// A newer entry of a name whose last byte the image lacks.
#[test]
fn names_are_read_past_the_end(rt: HostRuntime) -> Result<(), Fail> {
    let object = Item::Data(Version(2, 1, FILE, 0), 0, b"");
    let newer = Item::Entry(1, 2, 2, b"nam\xff");
    let items = [object, Item::Entry(1, 1, 2, b"nam\xff"), newer];
    let mut image = image_of::<LittleEndian>(rt.alloc(), &items)?;
    let len = image.len().saturating_sub(1);
    image.truncate(len);
    let found = nodes_kept::<LittleEndian>(rt.alloc(), &image)?;
    let wanted = image_of::<LittleEndian>(rt.alloc(), &[object, newer])?;
    equal_at(&rt, found.addresses.as_slice(), &[0, 112], "addresses");
    equal_at(&rt, found.written.as_slice(), wanted.as_slice(), "nodes");
    Ok(())
}
