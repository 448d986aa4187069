//! Deleted files of worked images.

use crate::checks::{equal_at, expect, expect_at};
use crate::images::{Item, REFUSED, entry_of, image_of, write_file};
use byteorder::{BigEndian, LittleEndian};
use jdeleted::mount_deleted;
use jmount::Mounted;
use jnode::{Order, write_entry};
use jscan::Geometry;
use jthrough::ViewFault;
use std::alloc::Global;
use std::process::Abort;
use std::test::Fail;
use test_support::{DIRECTORY, FILE, SYMLINK, Taker, fill_up};

const GEOMETRY: Geometry = Geometry { block: 4096 };

/// A name and the bytes of its file.
type Shown = (&'static [u8], &'static [u8]);

/// What zlib makes of `abcdefgh`.
const WHOLE: &[u8] = b"\x78\xda\x4b\x4c\x4a\x4e\x49\x4d\x4b\xcf\x00\x00\x0e\x00\x03\x25";

/// A file whose name was removed; one that had two names; one whose name of lower version comes
/// last; one that never had a name.
const REMOVED: [Item; 15] = [
    Item::Inode(5, 1, FILE, 4, 0, b"abcd"),
    Item::Named(1, 1, 5, b"a"),
    Item::Named(1, 2, 0, b"a"),
    Item::Named(1, 3, 6, b"old"),
    Item::Inode(6, 1, FILE, 1, 0, b"6"),
    Item::Named(1, 4, 0, b"old"),
    Item::Named(1, 5, 6, b"new"),
    Item::Named(1, 6, 0, b"new"),
    Item::Named(1, 9, 7, b"of higher version"),
    Item::Named(1, 8, 7, b"last"),
    Item::Named(1, 10, 0, b"of higher version"),
    Item::Named(1, 11, 0, b"last"),
    Item::Zeros(7, 1, 2, 0, 2),
    Item::Packed(8, 1, 6, WHOLE),
    Item::Inode(8, 2, FILE, 3, 0, b""),
];

const OF_REMOVED: [Shown; 4] = [
    (b"5-a", b"abcd"),
    (b"6-new", b"6"),
    (b"7-last", b"\0\0"),
    (b"8", b"abc"),
];

/// A file that is empty by now; one below a directory whose name is gone; one whose name stands for
/// another one by now; a symlink and a directory without names; names without an object; and files
/// that paths lead to, which are not shown.
const OTHERS: [Item; 16] = [
    Item::Inode(9, 1, FILE, 3, 0, b"was"),
    Item::Inode(9, 2, FILE, 0, 0, b""),
    Item::Inode(10, 1, DIRECTORY, 0, 0, b""),
    Item::Inode(11, 1, FILE, 2, 0, b"in"),
    Item::Named(10, 1, 11, b"inside"),
    Item::Named(1, 1, 14, b"x"),
    Item::Named(1, 2, 15, b"x"),
    Item::Inode(14, 1, FILE, 5, 0, b"first"),
    Item::Inode(15, 1, FILE, 6, 0, b"second"),
    Item::Inode(12, 1, SYMLINK, 3, 0, b"way"),
    Item::Named(1, 3, 77, b"no object"),
    Item::Inode(1, 1, DIRECTORY, 0, 0, b""),
    Item::Named(1, 4, 13, b"one"),
    Item::Named(1, 5, 13, b"two"),
    Item::Inode(13, 1, FILE, 4, 0, b"link"),
    Item::Named(1, 6, 0, b"one"),
];

const OF_OTHERS: [Shown; 2] = [(b"11-inside", b"in"), (b"14-x", b"first")];

/// Names that no file of a host has are left as they are.
const ODD: [Item; 5] = [
    Item::Inode(2, 1, FILE, 1, 0, b"2"),
    Item::Named(1, 1, 2, b"a/b\0\xFF"),
    Item::Named(1, 2, 0, b"a/b\0\xFF"),
    Item::Inode(u32::MAX, u32::MAX, FILE, 1, 0, b"m"),
    Item::Named(u32::MAX, u32::MAX, u32::MAX, b"."),
];

const OF_ODD: [Shown; 2] = [(b"2-a/b\0\xFF", b"2"), (b"4294967295-.", b"m")];

const IMAGES: [(&[Item], &[Shown]); 3] = [
    (&REMOVED, &OF_REMOVED),
    (&OTHERS, &OF_OTHERS),
    (&ODD, &OF_ODD),
];

/// Whether a name of a mount is this one, and stands for these bytes.
fn is_shown(alloc: Global, mounted: &Mounted<'_>, found: (u32, &[u8], u32), wanted: Shown) -> bool {
    let (dir, name, ino) = found;
    let mut sink = Taker::new(alloc);
    let put = mounted.put_bytes(ino, &mut sink);
    dir == 1 && name == wanted.0 && put == Ok(()) && sink.took(0, wanted.1)
}

/// Whether the names of a mount are just these.
fn are_shown(alloc: Global, mounted: &Mounted<'_>, wanted: &[Shown]) -> bool {
    let mut count = 0;
    for found in mounted.names() {
        match wanted.get(count) {
            Some(&shown) if is_shown(alloc, mounted, found, shown) => count += 1,
            _ => return false,
        }
    }
    count == wanted.len()
}

/// Mounts the deleted files of the image of some nodes, and looks at them.
fn try_image<E: Order>(
    rt: &impl Abort,
    alloc: Global,
    items: &[Item],
    wanted: &[Shown],
) -> Result<(), &'static str> {
    let image = image_of::<E>(alloc, items)?;
    let mut contents = Vec::new(alloc);
    let mut files = Vec::new(alloc);
    match mount_deleted::<E>(alloc, &image, GEOMETRY, &mut contents, &mut files) {
        Ok(mounted) => {
            expect_at(rt, are_shown(alloc, &mounted, wanted), wanted.len());
            Ok(())
        }
        Err(_) => Err("not mounted"),
    }
}

#[test]
fn deleted_files_are_shown(rt: HostRuntime) -> Result<(), Fail> {
    for &(items, wanted) in IMAGES.iter() {
        try_image::<LittleEndian>(&rt, rt.alloc(), items, wanted)?;
        try_image::<BigEndian>(&rt, rt.alloc(), items, wanted)?;
    }
    Ok(())
}

/// Number, what the name repeats up to 254 bytes, and the length of what is shown.
const CUT: [(u32, &[u8], usize); 6] = [
    (5, b"n", 254),
    (5, b"\xC3\xA9", 254),
    (10, b"\xC3\xA9", 253),
    (123_456, b"\xE2\x82\xAC", 253),
    (10, b"\x80", 3),
    (4_294_967_295, b"\xF0\x9F\x98\x80", 251),
];

/// A name of as many whole units as 254 bytes have.
fn name_of(alloc: Global, unit: &[u8]) -> Result<Vec<u8>, &'static str> {
    let mut name = Vec::new(alloc);
    for _ in 0..254 / unit.len().max(1) {
        name.extend_from_slice(unit).map_err(|_| "no memory")?;
    }
    Ok(name)
}

/// How long the one name is that is shown for a file of this number and name.
fn shown_len<E: Order>(alloc: Global, ino: u32, name: &[u8]) -> Result<usize, &'static str> {
    let mut image = image_of::<E>(alloc, &[])?;
    write_entry::<E>(&mut image, &entry_of(7, 1, ino, name)).map_err(|_| "no entry")?;
    fill_up(&mut image).map_err(|_| "no memory")?;
    write_file::<E>(&mut image, ino)?;
    let mut contents = Vec::new(alloc);
    let mut files = Vec::new(alloc);
    match mount_deleted::<E>(alloc, &image, GEOMETRY, &mut contents, &mut files) {
        Ok(mounted) => match mounted.names().next() {
            Some((_, shown, _)) => Ok(shown.len()),
            None => Err("nothing is shown"),
        },
        Err(_) => Err("not mounted"),
    }
}

#[test]
fn long_names_are_cut(rt: HostRuntime) -> Result<(), Fail> {
    for &(ino, unit, wanted) in CUT.iter() {
        let name = name_of(rt.alloc(), unit)?;
        let found = shown_len::<LittleEndian>(rt.alloc(), ino, &name)?;
        equal_at(&rt, found, wanted, ino);
    }
    Ok(())
}

/// Why the deleted files of an image do not mount.
fn refusal<E: Order>(alloc: Global, image: &[u8], block: u32) -> Option<ViewFault> {
    let mut contents = Vec::new(alloc);
    let mut files = Vec::new(alloc);
    mount_deleted::<E>(alloc, image, Geometry { block }, &mut contents, &mut files).err()
}

#[test]
fn faults_are_those_of_a_mount(rt: HostRuntime) -> Result<(), Fail> {
    let image = image_of::<LittleEndian>(rt.alloc(), &REFUSED)?;
    let clash = Some(ViewFault::Clash { addr: 0x90 });
    let junk = image.get(0x168..).ok_or("short")?;
    expect(
        &rt,
        refusal::<LittleEndian>(rt.alloc(), &image, 4096) == clash,
    );
    expect(
        &rt,
        refusal::<LittleEndian>(rt.alloc(), &image, 4095) == Some(ViewFault::BlockSize),
    );
    let data = Some(ViewFault::Data { addr: 0 });
    expect(&rt, refusal::<LittleEndian>(rt.alloc(), junk, 4096) == data);
    Ok(())
}
