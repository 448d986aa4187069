//! Images with compressed nodes that mount: what is found out of them, and what the mount shows.

use crate::checks::{equal, expect};
use crate::through::images::*;
use byteorder::{BigEndian, LittleEndian};
use jmount::{Mounted, mount};
use jnode::{Order, Seen};
use jscan::{Finding, FindingKind};
use jthrough::{View, mount_through, mount_view, view_image};
use std::alloc::Global;
use std::process::Abort;
use std::test::Fail;

/// Two files: four bytes as they are and sixty by ZLIB over them, and twenty by RTIME. Among them
/// are a node beside which nothing may be written, and an attribute.
fn items() -> &'static [Item] {
    &[
        Item::Marker,
        Item::Entry(1, 1, 2, b"a"),
        Item::Plain(Version(2, 1, FILE, 4), 0, b"abcd"),
        Item::Packed(Version(2, 2, FILE, 62), 2, 60, ZLIB, ZLIB_HELLO),
        READ_ONLY,
        Item::Entry(1, 2, 3, b"b"),
        Item::Packed(Version(3, 5, FILE, 20), 0, 20, RTIME, RTIME_A),
        ATTRIBUTE,
    ]
}

/// Where its tiles stand that give nodes.
const TILES: [u32; 5] = [0x0C, 0x38, 0x80, 0xE8, 0x114];

const FINDINGS: [Finding; 2] = [
    Finding {
        addr: 0xDC,
        kind: FindingKind::ReadOnly(0xA0F7),
    },
    Finding {
        addr: 0x15C,
        kind: FindingKind::Attribute,
    },
];

/// The first file: two bytes of its first version, and all of its second.
const AB_HELLO: &[u8] = b"abhello, hello, hello\nhello, hello, hello\nhello, hello, hello\n";

fn are_at(tiles: &[(u32, Seen<'_>)], wanted: &[u32]) -> bool {
    if tiles.len() != wanted.len() {
        return false;
    }
    for i in 0..tiles.len() {
        if tiles[i].0 != wanted[i] {
            return false;
        }
    }
    true
}

fn is_view(rt: &impl Abort, view: &View<'_>, contents: &[u8]) {
    expect(rt, are_at(&view.tiles, &TILES));
    expect(rt, view.findings.as_slice() == FINDINGS.as_slice());
    equal(rt, (view.read_only, view.refused), (true, None));
    equal(rt, contents.len(), 80);
    expect(rt, contents.starts_with(HELLO));
    expect(rt, contents.ends_with(&[b'a'; 20]));
}

/// Whether a file is a front and, behind it, so many bytes, of which it has the first.
fn reads(mounted: &Mounted<'_>, ino: u32, wanted: &[u8]) -> bool {
    let mut bytes = [b'#'; 64];
    let count = mounted.read_at(ino, 0, &mut bytes);
    bytes.starts_with(wanted)
        && count == wanted.len()
        && bytes[count..].iter().all(|byte| *byte == b'#')
}

/// What the mount has of the image itself.
fn is_of_image(rt: &impl Abort, mounted: &Mounted<'_>, image: &[u8]) {
    expect(rt, mounted.image() == image);
    expect(rt, mounted.findings() == FINDINGS.as_slice());
    expect(rt, mounted.read_only());
}

fn has_numbers(rt: &impl Abort, mounted: &Mounted<'_>) {
    equal(rt, mounted.find(b"/a"), Ok(2));
    equal(rt, mounted.find(b"/b"), Ok(3));
    equal(
        rt,
        (mounted.top(1), mounted.top(2), mounted.top(3)),
        (2, 2, 5),
    );
    equal(rt, mounted.next(), 4);
}

fn has_bytes(rt: &impl Abort, mounted: &Mounted<'_>) {
    equal(rt, mounted.object(2).map(|object| object.size), Some(62));
    equal(rt, mounted.object(3).map(|object| object.size), Some(20));
    expect(rt, reads(mounted, 2, AB_HELLO));
    expect(rt, reads(mounted, 3, &[b'a'; 20]));
}

fn is_mount(rt: &impl Abort, mounted: &Mounted<'_>, image: &[u8]) {
    is_of_image(rt, mounted, image);
    has_numbers(rt, mounted);
    has_bytes(rt, mounted);
}

/// By the two calls.
fn is_mounted_by_view<E: Order>(rt: &impl Abort, alloc: Global, image: &[u8]) -> Result<(), Fail> {
    // What stands in the buffer goes.
    let mut contents = vec![in alloc; 1, 2, 3]?;
    let view = view_image::<E>(alloc, image, GEOMETRY, &mut contents)?;
    is_view(rt, &view, &contents);
    let mounted = mount_view::<E>(alloc, image, GEOMETRY, view, &contents)?;
    is_mount(rt, &mounted, image);
    Ok(())
}

fn is_mounted<E: Order>(rt: &impl Abort, alloc: Global) -> Result<(), Fail> {
    let image = image_of::<E>(alloc, items())?;
    is_mounted_by_view::<E>(rt, alloc, &image)?;
    let mut contents = vec![in alloc; 4]?;
    let mounted = mount_through::<E>(alloc, &image, GEOMETRY, &mut contents)?;
    is_mount(rt, &mounted, &image);
    Ok(())
}

#[test]
fn compressed_nodes_are_expanded(rt: HostRuntime) -> Result<(), Fail> {
    is_mounted::<LittleEndian>(&rt, rt.alloc())?;
    is_mounted::<BigEndian>(&rt, rt.alloc())
}

/// Nodes of one version and content by two methods, and as they are; and entries that are twins.
fn twins() -> &'static [Item] {
    &[
        Item::Packed(Version(2, 1, FILE, 20), 0, 20, ZLIB, ZLIB_A),
        Item::Entry(1, 1, 2, b"a"),
        Item::Packed(Version(2, 1, FILE, 20), 0, 20, RTIME, RTIME_A),
        Item::Entry(1, 1, 2, b"a"),
        Item::Plain(Version(2, 1, FILE, 20), 0, &[b'a'; 20]),
    ]
}

fn are_twins<E: Order>(rt: &impl Abort, alloc: Global) -> Result<(), Fail> {
    let image = image_of::<E>(alloc, twins())?;
    let mut contents = Vec::new(alloc);
    let mounted = mount_through::<E>(alloc, &image, GEOMETRY, &mut contents)?;
    equal(rt, mounted.find(b"/a"), Ok(2));
    expect(rt, reads(&mounted, 2, &[b'a'; 20]));
    Ok(())
}

#[test]
fn one_content_in_two_methods_is_no_clash(rt: HostRuntime) -> Result<(), Fail> {
    are_twins::<LittleEndian>(&rt, rt.alloc())?;
    are_twins::<BigEndian>(&rt, rt.alloc())
}

/// A directory, a file as it is, and one that is a hole.
fn plain_items() -> &'static [Item] {
    &[
        Item::Plain(Version(2, 3, DIRECTORY, 0), 0, b""),
        Item::Entry(1, 1, 2, b"d"),
        Item::Entry(2, 4, 3, b"f"),
        Item::Plain(Version(3, 6, FILE, 5), 2, b"xyz"),
        Item::Entry(2, 5, 7, b"gone"),
        ATTRIBUTE,
    ]
}

fn shows_file(rt: &impl Abort, mounted: &Mounted<'_>) {
    equal(rt, mounted.find(b"/d/f"), Ok(3));
    equal(
        rt,
        (mounted.top(1), mounted.top(2), mounted.top(3)),
        (1, 5, 6),
    );
    expect(rt, reads(mounted, 3, b"\0\0xyz"));
}

fn show_the_same(rt: &impl Abort, through: &Mounted<'_>, plain: &Mounted<'_>) {
    expect(rt, through.findings() == plain.findings());
    for ino in 0..9 {
        expect(rt, through.object(ino) == plain.object(ino));
    }
    equal(rt, through.next(), plain.next());
}

/// An image without compressed nodes mounts through as it mounts.
fn is_as_mounted<E: Order>(rt: &impl Abort, alloc: Global) -> Result<(), Fail> {
    let image = image_of::<E>(alloc, plain_items())?;
    let plain = mount::<E>(alloc, &image, GEOMETRY)?;
    let mut contents = Vec::new(alloc);
    let through = mount_through::<E>(alloc, &image, GEOMETRY, &mut contents)?;
    show_the_same(rt, &through, &plain);
    shows_file(rt, &through);
    shows_file(rt, &plain);
    Ok(())
}

#[test]
fn plain_images_mount_as_ever(rt: HostRuntime) -> Result<(), Fail> {
    is_as_mounted::<LittleEndian>(&rt, rt.alloc())?;
    is_as_mounted::<BigEndian>(&rt, rt.alloc())
}
