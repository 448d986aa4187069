//! Dumps with spare bytes, by hand and of images of entries.

use crate::checks::{equal_at, expect_at};
use byteorder::BigEndian;
use jspare::{LAYOUTS, PageLayout, drop_spare, spare_of};
use std::alloc::{AllocError, Global};
use test_support::{Attributes, Node, image_of_nodes};

/// A layout, a dump, and its image.
const DUMPS: [(PageLayout, &[u8], &[u8]); 6] = [
    (PageLayout { page: 2, spare: 1 }, b"abXcdY", b"abcd"),
    (PageLayout { page: 2, spare: 1 }, b"abXc", b"abc"),
    (PageLayout { page: 2, spare: 1 }, b"abXcd", b"abcd"),
    (PageLayout { page: 1, spare: 3 }, b"aXYZbXY", b"ab"),
    (PageLayout { page: 3, spare: 0 }, b"abcd", b"abcd"),
    (PageLayout { page: 2, spare: 1 }, b"", b""),
];

/// How many entries an image has, and bytes in each name: three pages of 4096 bytes.
const ENTRIES: usize = 120;

const NAME: [u8; 60] = [b'n'; 60];

/// The image that is left of a dump.
fn image_of(alloc: Global, layout: PageLayout, dump: &[u8]) -> Option<Vec<u8>> {
    if layout.page == 0 {
        return None;
    }
    let mut image = dump.to_vec(alloc).ok()?;
    drop_spare(&mut image, layout);
    Some(image)
}

/// An image of entries alone.
fn entries(alloc: Global) -> Option<Vec<u8>> {
    let nodes = [Node::Entry(1, 2, &NAME); ENTRIES];
    let attributes = Attributes {
        uid: 0,
        gid: 0,
        atime: 0,
        mtime: 0,
    };
    image_of_nodes::<BigEndian>(alloc, &nodes, attributes).ok()
}

/// The dump of an image, with spare bytes behind each whole page.
fn dump_of(alloc: Global, image: &[u8], layout: PageLayout) -> Result<Vec<u8>, AllocError> {
    let page = layout.page as usize;
    let mut dump = Vec::new(alloc);
    for (i, byte) in image.iter().enumerate() {
        dump.push(*byte)?;
        if page != 0 && (i + 1) % page == 0 {
            dump.resize(dump.len() + layout.spare as usize, 0x5A)?;
        }
    }
    Ok(dump)
}

/// The layout that is found of a dump by this one.
fn found(alloc: Global, layout: PageLayout) -> Option<PageLayout> {
    let image = entries(alloc)?;
    let dump = dump_of(alloc, &image, layout).ok()?;
    spare_of(alloc, &dump).ok()?
}

#[test]
fn pages_are_left_without_their_spare_bytes(rt: HostRuntime) {
    for (layout, dump, image) in DUMPS {
        let is_left = match image_of(rt.alloc(), layout, dump) {
            Some(left) => left.as_slice() == image,
            None => false,
        };
        expect_at(&rt, is_left, layout.spare);
    }
}

#[test]
fn layouts_of_dumps_are_found(rt: HostRuntime) {
    for layout in LAYOUTS {
        equal_at(&rt, found(rt.alloc(), layout), Some(layout), layout.spare);
    }
}

#[test]
fn a_dump_without_spare_bytes_has_no_layout(rt: HostRuntime) {
    let none = PageLayout { page: 1, spare: 0 };
    equal_at(&rt, found(rt.alloc(), none), None, 0);
}
