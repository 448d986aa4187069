//! The image that goes out.

use crate::checks::{equal_at, expect_at};
use crate::images::Row::{Dirt, Dropped, Kept};
use crate::images::{Item, Row, compact_of, counts_of, image_of};
use byteorder::{BigEndian, LittleEndian};
use jcollect::{CollectFault, Collected, compact_into};
use jmount::{Mounted, mount};
use jnode::Order;
use jscan::Geometry;
use std::alloc::Global;
use std::process::Abort;
use std::test::Fail;
use test_support::{DIRECTORY, FILE, Taker};

pub(crate) const GEOMETRY: Geometry = Geometry { block: 8192 };

/// What an image is about, and its items.
#[derive(Clone, Copy)]
pub(crate) struct Case(pub &'static str, pub &'static [Row]);

pub(crate) const CASES: [Case; 7] = [
    Case("no bytes at all", &[]),
    Case(
        "superseded, deleted, twice, and unreached",
        &[
            Dropped(Item::Entry(1, 1, 2, b"a")),
            Kept(Item::Data(2, 1, DIRECTORY, 0, 0, b"")),
            Dropped(Item::Data(3, 1, FILE, 4, 0, b"abcd")),
            Kept(Item::Data(3, 2, FILE, 4, 0, b"ABC")),
            Dropped(Item::Data(3, 3, FILE, 4, 1, b"xyz")),
            Kept(Item::Data(3, 3, FILE, 4, 1, b"xyz")),
            Kept(Item::Entry(1, 2, 2, b"d")),
            Dropped(Item::Entry(1, 3, 0, b"a")),
            Dropped(Item::Entry(2, 2, 3, b"a")),
            Kept(Item::Entry(2, 2, 3, b"a")),
            Dropped(Item::Data(4, 1, FILE, 4, 0, b"none")),
            Dropped(Item::Entry(5, 1, 4, b"far")),
            Kept(Item::Entry(2, 3, 3, b"hard")),
        ],
    ),
    Case(
        "markers, dirt, and a node that is damaged",
        &[
            Dirt(&[
                0x85, 0x19, 0x03, 0x20, 0x0c, 0, 0, 0, 0xb1, 0xb0, 0x1e, 0xe4,
            ]),
            Dirt(&[1, 2, 3, 4]),
            Kept(Item::Entry(1, 1, 2, b"a")),
            Dirt(&[0xFF; 8]),
            Dirt(&[
                0x85, 0x19, 0x02, 0xe0, 0x44, 0, 0, 0, 0x1d, 0xfb, 0xf7, 0x98, 2, 0, 0, 0,
            ]),
            Dirt(&[0; 52]),
            Kept(Item::Zeros(2, 1, 5)),
        ],
    ),
    Case(
        "nothing that matters",
        &[Dropped(Item::Entry(1, 1, 57, b"q"))],
    ),
    Case(
        "a ring that names lead to, and one that none do",
        &[
            Dropped(Item::Data(2, 1, DIRECTORY, 0, 0, b"")),
            Dropped(Item::Data(3, 1, DIRECTORY, 0, 0, b"")),
            Dropped(Item::Entry(2, 1, 3, b"a")),
            Dropped(Item::Entry(3, 1, 2, b"b")),
            Kept(Item::Entry(1, 1, 5, b"d")),
            Kept(Item::Data(5, 1, DIRECTORY, 0, 0, b"")),
            Kept(Item::Entry(5, 1, 5, b"r")),
        ],
    ),
    Case(
        "two versions of the root, and zeros over data",
        &[
            Dropped(Item::Data(1, 1, DIRECTORY, 0, 0, b"")),
            Kept(Item::Data(1, 2, 0o040700, 0, 0, b"")),
            Dropped(Item::Data(2, 1, FILE, 3, 0, b"abc")),
            Kept(Item::Zeros(2, 2, 3)),
            Kept(Item::Entry(1, 1, 2, b"zeros")),
        ],
    ),
    Case(
        "several names of several lengths",
        &[
            Kept(Item::Entry(1, 1, 2, b"a")),
            Kept(Item::Entry(1, 2, 2, b"ab")),
            Dropped(Item::Entry(1, 3, 3, b"abc")),
            Kept(Item::Entry(1, 4, 2, b"abcd")),
            Kept(Item::Data(2, 7, FILE, 1, 0, b"x")),
        ],
    ),
];

/// Whether two mounts have the same object of a number: its attributes and its first bytes.
fn is_same(one: &Mounted<'_>, other: &Mounted<'_>, ino: u32) -> bool {
    let mut bytes = [0; 64];
    let mut others = [0; 64];
    let len = one.read_at(ino, 0, &mut bytes);
    let other_len = other.read_at(ino, 0, &mut others);
    one.object(ino) == other.object(ino) && len == other_len && bytes == others
}

/// The numbers that some paths lead to, or the faults.
fn leads_alike(one: &Mounted<'_>, other: &Mounted<'_>) -> bool {
    let paths = [
        "/", "/a", "/ab", "/abc", "/abcd", "/b", "/c", "/d", "/d/a", "/d/hard", "/d/r/r", "/far",
        "/q", "/zeros",
    ];
    paths.iter().all(|path| one.find(path.as_bytes()) == other.find(path.as_bytes()))
}

/// Whether the second mount has no finding, and shows what the first one does.
pub(crate) fn shows_same(
    alloc: Global,
    one: &Mounted<'_>,
    other: &Mounted<'_>,
) -> Result<bool, Fail> {
    let is_clean = other.findings().is_empty() && other.dangling(alloc)?.is_empty();
    let mut is_same_tree = is_clean && leads_alike(one, other);
    for (ino, _) in other.objects() {
        is_same_tree = is_same_tree && is_same(one, other, ino);
    }
    Ok(is_same_tree)
}

/// Whether an image that went out has no finding, and shows what the other one does.
fn shows<E: Order>(alloc: Global, image: &[u8], out: &[u8]) -> Result<bool, Fail> {
    let one = mount::<E>(alloc, image, GEOMETRY)?;
    let other = mount::<E>(alloc, out, GEOMETRY)?;
    shows_same(alloc, &one, &other)
}

fn goes_out<E: Order>(rt: &(impl Abort + AllocGlobal), case: Case) -> Result<(), Fail> {
    let Case(about, rows) = case;
    let image = image_of::<E>(rt.alloc(), rows)?;
    let wanted = compact_of::<E>(rt.alloc(), rows)?;
    let mounted = mount::<E>(rt.alloc(), &image, GEOMETRY)?;
    let mut sink = Taker::new(rt.alloc());
    let told = compact_into::<E, Taker>(rt.alloc(), &mounted, GEOMETRY, 1, &mut sink)?;
    let (kept, nodes) = counts_of(rows);
    let bytes = u32::try_from(wanted.len()).unwrap_or(u32::MAX);
    equal_at(rt, told, Collected { kept, nodes, bytes }, about);
    equal_at(rt, sink.bytes.as_slice(), wanted.as_slice(), about);
    expect_at(rt, shows::<E>(rt.alloc(), &image, &sink.bytes)?, about);
    Ok(())
}

#[test]
fn nodes_that_matter_go_out(rt: HostRuntime) -> Result<(), Fail> {
    for case in CASES.iter() {
        goes_out::<LittleEndian>(&rt, *case)?;
        goes_out::<BigEndian>(&rt, *case)?;
    }
    Ok(())
}

/// What goes out goes out again, whole.
#[test]
fn nothing_more_is_left_out(rt: HostRuntime) -> Result<(), Fail> {
    for case in CASES.iter() {
        let Case(about, rows) = *case;
        let once = compact_of::<LittleEndian>(rt.alloc(), rows)?;
        let mounted = mount::<LittleEndian>(rt.alloc(), &once, GEOMETRY)?;
        let mut sink = Taker::new(rt.alloc());
        compact_into::<LittleEndian, Taker>(rt.alloc(), &mounted, GEOMETRY, 1, &mut sink)?;
        equal_at(&rt, sink.bytes.as_slice(), once.as_slice(), about);
    }
    Ok(())
}

/// A sink that takes little, and fails at each byte.
#[test]
fn sinks_fail_at_each_byte(rt: HostRuntime) -> Result<(), Fail> {
    let Case(_, rows) = CASES[1];
    let image = image_of::<LittleEndian>(rt.alloc(), rows)?;
    let wanted = compact_of::<LittleEndian>(rt.alloc(), rows)?;
    let mounted = mount::<LittleEndian>(rt.alloc(), &image, GEOMETRY)?;
    for limit in 0..wanted.len() {
        let mut sink = Taker::limited(rt.alloc(), 7, limit);
        let told = compact_into::<LittleEndian, Taker>(
            rt.alloc(),
            &mounted,
            GEOMETRY,
            1,
            &mut sink,
        );
        let begun = wanted.get(..limit).unwrap_or(&[]);
        expect_at(&rt, told == Err(CollectFault::Sink), limit);
        expect_at(&rt, sink.took(1, begun), limit);
    }
    Ok(())
}

/// The bytes up to a node's last word's end go out as they are; those that an image lacks are
/// erased.
#[test]
fn last_words_stay(rt: HostRuntime) -> Result<(), Fail> {
    let rows = [
        Kept(Item::Data(2, 1, FILE, 1, 0, b"x")),
        Kept(Item::Entry(1, 1, 2, b"ab\xff")),
    ];
    let mut image = image_of::<LittleEndian>(rt.alloc(), &rows)?;
    let mut wanted = compact_of::<LittleEndian>(rt.alloc(), &rows)?;
    if let Some(filler) = image.get_mut(70) {
        *filler = 9;
    }
    if let Some(filler) = wanted.get_mut(82) {
        *filler = 9;
    }
    image.truncate(image.len().saturating_sub(2));
    let mounted = mount::<LittleEndian>(rt.alloc(), &image, GEOMETRY)?;
    let mut sink = Taker::new(rt.alloc());
    compact_into::<LittleEndian, Taker>(rt.alloc(), &mounted, GEOMETRY, 1, &mut sink)?;
    equal_at(&rt, sink.bytes.as_slice(), wanted.as_slice(), "last words");
    Ok(())
}
