//! Dumps that are read page by page, the layout that is found of one, and its line.

use crate::checks::{equal_at, expect_at};
use byteorder::LittleEndian;
use flashbase::{LoadFault, load};
use jspare::{LAYOUTS, PageLayout, PageSource, put_spare, spare_shown};
use std::alloc::Global;
use std::test::Fail;
use test_support::{Attributes, Giver, Node, Taker, image_of_nodes};

/// Pages of three bytes with two spare ones.
const LAYOUT: PageLayout = PageLayout { page: 3, spare: 2 };

/// A dump, and its image.
const DUMPS: [(&[u8], &[u8]); 6] = [
    (b"", b""),
    (b"ab", b"ab"),
    (b"abcX", b"abc"),
    (b"abcXY", b"abc"),
    (b"abcXYd", b"abcd"),
    (b"abcXYdefZW", b"abcdef"),
];

#[test]
fn pages_are_given_alone(rt: HostRuntime) -> Result<(), Fail> {
    for (dump, image) in DUMPS {
        let mut source = PageSource::new(Giver::failing(dump, 2, 99), Some(LAYOUT));
        let pages = load(rt.alloc(), &mut source, 99)?;
        expect_at(&rt, pages.as_slice() == image, dump.len());
        let mut source = PageSource::new(Giver::failing(dump, 2, 99), None);
        let whole = load(rt.alloc(), &mut source, 99)?;
        expect_at(&rt, whole.as_slice() == dump, dump.len());
    }
    Ok(())
}

#[test]
fn after_a_failure_it_goes_on(rt: HostRuntime) -> Result<(), Fail> {
    let dump = Giver::failing(b"abcXYdefZW", 1, 4);
    let mut source = PageSource::new(dump, Some(LAYOUT));
    let failed = load(rt.alloc(), &mut source, 99);
    expect_at(&rt, matches!(failed, Err(LoadFault::Device)), 4);
    equal_at(&rt, source.source().failures, 1, 4);
    let rest = load(rt.alloc(), &mut source, 99)?;
    expect_at(&rt, rest.as_slice() == b"def".as_slice(), 4);
    Ok(())
}

const NAME: [u8; 60] = [b'n'; 60];

/// An image of entries alone.
fn entries(alloc: Global) -> Option<Vec<u8>> {
    let nodes = [Node::Entry(1, 2, &NAME); 20];
    let attributes = Attributes {
        uid: 0,
        gid: 0,
        atime: 0,
        mtime: 0,
    };
    image_of_nodes::<LittleEndian>(alloc, &nodes, attributes).ok()
}

#[test]
fn a_layout_is_found_if_a_node_is_damaged(rt: HostRuntime) -> Result<(), Fail> {
    let image = entries(rt.alloc()).ok_or("no image")?;
    let mut dump = Vec::new(rt.alloc());
    for page in image.chunks(512) {
        dump.extend_from_slice(page)?;
        dump.extend_from_slice(&[0x5A; 16])?;
    }
    equal_at(&rt, spare_shown(rt.alloc(), &dump)?, Some(LAYOUTS[0]), 512);
    equal_at(&rt, spare_shown(rt.alloc(), &image)?, None, 0);
    Ok(())
}

const LINE: &[u8] = b"spare 224 after each 4096\n";

#[test]
fn a_layout_has_a_line(rt: HostRuntime) -> Result<(), Fail> {
    let mut sink = Taker::new(rt.alloc());
    put_spare(Some(LAYOUTS[3]), &mut sink).map_err(|_| "no line")?;
    put_spare(None, &mut sink).map_err(|_| "no nothing")?;
    expect_at(&rt, sink.bytes.as_slice() == LINE, 224);
    let mut short = Taker::limited(rt.alloc(), 5, 9);
    let failed = put_spare(Some(LAYOUTS[3]), &mut short).is_err();
    let front = LINE.get(..9).ok_or("short")?;
    expect_at(&rt, failed && short.took(1, front), 9);
    Ok(())
}
