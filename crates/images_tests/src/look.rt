//! Tests of `jlook`: an image of which one file is sound, one broken, one of a method that is not
//! read, one too long, and one symlink, all of them compressed.

use crate::checks::{equal, equal_at, expect};
use crate::through::images::*;
use byteorder::{BigEndian, LittleEndian};
use jlook::{mount_looked, mount_object, mount_tree};
use jmount::Mounted;
use jnode::Order;
use jthrough::{ViewFault, mount_through};
use std::alloc::Global;
use std::collections::BTreeSet;
use std::process::Abort;
use std::test::Fail;

const SYMLINK: u32 = 0o120777;

const HELLO_FILE: Item = Item::Packed(Version(2, 1, FILE, 60), 0, 60, ZLIB, ZLIB_HELLO);

const BROKEN: Item = Item::Packed(Version(3, 1, FILE, 20), 0, 20, ZLIB, ZLIB_BROKEN);

const UNREAD: Item = Item::Packed(Version(4, 1, FILE, 21), 0, 21, UNKNOWN, ZLIB_A);

const LINK: Item = Item::Packed(Version(5, 1, SYMLINK, 20), 0, 20, ZLIB, ZLIB_A);

/// A block of 4,096 bytes does not hold a marker and 68 and 4,017 bytes.
const LONG: Item = Item::Packed(Version(6, 1, FILE, 4017), 0, 4017, ZLIB, ZLIB_A);

fn items() -> &'static [Item] {
    &[
        Item::Entry(1, 1, 2, b"a"),
        HELLO_FILE,
        Item::Entry(1, 2, 3, b"b"),
        BROKEN,
        Item::Entry(1, 3, 4, b"c"),
        UNREAD,
        Item::Entry(1, 4, 5, b"d"),
        LINK,
        Item::Entry(1, 5, 6, b"e"),
        LONG,
    ]
}

/// A number and its size.
const SIZES: [(u32, u32); 5] = [(2, 60), (3, 20), (4, 21), (5, 20), (6, 4017)];

/// Whether an object begins with these bytes.
fn begins(mounted: &Mounted<'_>, ino: u32, wanted: &[u8]) -> bool {
    let mut bytes = [b'#'; 64];
    let count = mounted.read_at(ino, 0, &mut bytes);
    wanted.len() <= count && bytes.starts_with(wanted)
}

fn has_tree(rt: &impl Abort, mounted: &Mounted<'_>) {
    for (ino, size) in SIZES {
        equal_at(
            rt,
            mounted.object(ino).map(|object| object.size),
            Some(size),
            ino,
        );
    }
    equal(rt, mounted.find(b"/a"), Ok(2));
    equal(rt, mounted.find(b"/e"), Ok(6));
    equal(rt, mounted.next(), 7);
}

fn only(alloc: Global, ino: u32) -> Result<BTreeSet<u32>, Fail> {
    let mut wanted = BTreeSet::new(alloc);
    wanted.insert(ino)?;
    Ok(wanted)
}

/// The tree, with the target of the symlink: of the contents those twenty bytes alone.
fn shows_tree<E: Order>(rt: &impl Abort, alloc: Global) -> Result<(), Fail> {
    let image = image_of::<E>(alloc, items())?;
    let mut contents = Vec::new(alloc);
    {
        let mounted = mount_tree::<E>(alloc, &image, GEOMETRY, &mut contents)?;
        has_tree(rt, &mounted);
        expect(rt, begins(&mounted, 5, &[b'a'; 20]));
        expect(rt, begins(&mounted, 2, &[0; 60]));
    }
    equal(rt, contents.len(), 20);
    Ok(())
}

#[test]
fn a_broken_file_hides_no_tree(rt: HostRuntime) -> Result<(), Fail> {
    shows_tree::<LittleEndian>(&rt, rt.alloc())?;
    shows_tree::<BigEndian>(&rt, rt.alloc())
}

/// The sound file, and nothing else.
fn shows_file<E: Order>(rt: &impl Abort, alloc: Global) -> Result<(), Fail> {
    let image = image_of::<E>(alloc, items())?;
    let mut contents = Vec::new(alloc);
    {
        let mounted = mount_object::<E>(alloc, &image, GEOMETRY, b"/a", &mut contents)?;
        has_tree(rt, &mounted);
        expect(rt, begins(&mounted, 2, HELLO));
        expect(rt, begins(&mounted, 5, &[0; 20]));
    }
    equal(rt, contents.len(), 60);
    Ok(())
}

#[test]
fn a_broken_file_hides_no_other(rt: HostRuntime) -> Result<(), Fail> {
    shows_file::<LittleEndian>(&rt, rt.alloc())?;
    shows_file::<BigEndian>(&rt, rt.alloc())
}

/// What is wanted, and why the image does not mount then.
fn refusals() -> &'static [(u32, ViewFault)] {
    &[
        (3, ViewFault::Data { addr: 0xB4 }),
        (
            4,
            ViewFault::Compressed {
                addr: 0x130,
                compr: UNKNOWN,
            },
        ),
        (6, ViewFault::TooLong { addr: 0x228 }),
    ]
}

fn is_refused<E: Order>(rt: &impl Abort, alloc: Global) -> Result<(), Fail> {
    let image = image_of::<E>(alloc, items())?;
    for &(ino, fault) in refusals() {
        let mut contents = Vec::new(alloc);
        let wanted = only(alloc, ino)?;
        let mounted = mount_looked::<E>(alloc, &image, GEOMETRY, &wanted, &mut contents);
        equal_at(rt, mounted.err(), Some(fault), ino);
    }
    let mut contents = Vec::new(alloc);
    let mounted = mount_through::<E>(alloc, &image, GEOMETRY, &mut contents);
    equal(rt, mounted.err(), Some(ViewFault::Data { addr: 0xB4 }));
    Ok(())
}

#[test]
fn a_file_that_is_wanted_refuses(rt: HostRuntime) -> Result<(), Fail> {
    is_refused::<LittleEndian>(&rt, rt.alloc())?;
    is_refused::<BigEndian>(&rt, rt.alloc())
}

/// The first byte of an object.
fn first_of(mounted: &Mounted<'_>, ino: u32) -> Option<u8> {
    let mut bytes = [b'#'];
    let count = mounted.read_at(ino, 0, &mut bytes);
    (count == 1).then_some(bytes[0])
}

/// Nodes of object 2, and the byte that it begins with where the tree alone is wanted: it is a
/// symlink or none by the newest, whatever an older one says.
fn symlinks() -> &'static [(&'static [Item], u8)] {
    &[
        (
            &[Item::Plain(Version(2, 1, SYMLINK, 20), 0, &[b'b'; 20])],
            b'b',
        ),
        (&[Item::Plain(Version(2, 1, FILE, 20), 0, &[b'b'; 20])], 0),
        (
            &[
                Item::Plain(Version(2, 1, SYMLINK, 20), 0, &[b'b'; 20]),
                Item::Plain(Version(2, 2, FILE, 20), 0, &[b'c'; 20]),
            ],
            0,
        ),
        (
            &[
                Item::Plain(Version(2, 2, SYMLINK, 20), 0, &[b'b'; 20]),
                Item::Packed(Version(2, 1, FILE, 20), 0, 20, ZLIB, ZLIB_A),
            ],
            b'b',
        ),
        (
            &[
                Item::Plain(Version(2, 1, SYMLINK, 20), 0, &[b'b'; 20]),
                Item::Packed(Version(2, 2, SYMLINK, 20), 0, 20, ZLIB, ZLIB_A),
            ],
            b'a',
        ),
        (
            &[
                Item::Plain(Version(2, 1, SYMLINK, 20), 0, &[b'b'; 20]),
                Item::Packed(Version(2, 2, FILE, 20), 0, 20, ZLIB, ZLIB_BROKEN),
            ],
            0,
        ),
    ]
}

#[test]
fn a_symlink_is_one_by_its_newest_node(rt: HostRuntime) -> Result<(), Fail> {
    let alloc = rt.alloc();
    for &(items, first) in symlinks() {
        let image = image_of::<LittleEndian>(alloc, items)?;
        let mut contents = Vec::new(alloc);
        let mounted = mount_tree::<LittleEndian>(alloc, &image, GEOMETRY, &mut contents)?;
        equal(&rt, first_of(&mounted, 2), Some(first));
    }
    Ok(())
}

/// Objects 2 and 3, which are not empty, and names of the root: `a` was first 2 and is 3 now, `b`
/// was removed, and `r` is the root itself.
const NAMED: &[Item] = &[
    Item::Entry(1, 2, 3, b"a"),
    Item::Entry(1, 1, 2, b"a"),
    Item::Entry(1, 3, 2, b"b"),
    Item::Entry(1, 4, 0, b"b"),
    Item::Entry(1, 5, 1, b"r"),
    Item::Plain(Version(2, 1, FILE, 20), 0, &[b'b'; 20]),
    Item::Packed(Version(3, 1, FILE, 20), 0, 20, ZLIB, ZLIB_A),
];

/// A path, and the bytes that the objects 2 and 3 begin with where what it names is wanted.
fn objects() -> &'static [(&'static [u8], u8, u8)] {
    &[
        (b"/a", 0, b'a'),
        (b"/b", 0, 0),
        (b"/c", 0, 0),
        (b"/a/a", 0, 0),
        (b"a", 0, 0),
        (b"/", 0, 0),
        (b"/r/r/a", 0, b'a'),
        // Of so many names that they are looked up in the tree alone.
        (
            b"/r/r/r/r/r/r/r/r/r/r/r/r/r/r/r/r/r/r/r/r/r/r/r/r/r/r/r/r/r/r/r/r\
              /r/r/r/r/r/r/r/r/r/r/r/r/r/r/r/r/r/r/r/r/r/r/r/r/r/r/r/r/r/r/r/r/a",
            0,
            b'a',
        ),
    ]
}

#[test]
fn an_object_is_that_of_the_newest_name(rt: HostRuntime) -> Result<(), Fail> {
    let alloc = rt.alloc();
    let image = image_of::<LittleEndian>(alloc, NAMED)?;
    for &(path, second, third) in objects() {
        let mut contents = Vec::new(alloc);
        let mounted = mount_object::<LittleEndian>(alloc, &image, GEOMETRY, path, &mut contents)?;
        equal_at(&rt, first_of(&mounted, 2), Some(second), path);
        equal_at(&rt, first_of(&mounted, 3), Some(third), path);
    }
    Ok(())
}

/// Two nodes of one version, whose contents differ: as they are 88 bytes.
const CLASHING: &[Item] = &[
    Item::Plain(Version(2, 1, FILE, 20), 0, &[b'a'; 20]),
    Item::Packed(Version(2, 1, FILE, 20), 0, 20, ZLIB, ZLIB_B),
    Item::Entry(1, 1, 2, b"a"),
];

/// They clash if they are wanted, and not if another is.
#[test]
fn contents_that_are_not_wanted_do_not_clash(rt: HostRuntime) -> Result<(), Fail> {
    let alloc = rt.alloc();
    let image = image_of::<LittleEndian>(alloc, CLASHING)?;
    let clash = ViewFault::Clash { addr: 0x58 };
    for (ino, fault) in [(2, Some(clash)), (3, None)] {
        let mut contents = Vec::new(alloc);
        let wanted = only(alloc, ino)?;
        let mounted = mount_looked::<LittleEndian>(alloc, &image, GEOMETRY, &wanted, &mut contents);
        equal_at(&rt, mounted.err(), fault, ino);
    }
    Ok(())
}
