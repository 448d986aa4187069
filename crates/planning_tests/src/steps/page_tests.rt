//! Writes and files by larger pages.

use crate::checks::{equal, equal_at};
use crate::steps::lines::answer_by;
use crate::steps::trees::{index_of, small};
use jscan::Page;
use jsteps::Index;
use std::alloc::Global;
use std::process::Abort;
use std::test::Fail;

/// A page, a line, and its answer.
type Row = (Page, &'static str, &'static str);

/// Writes and cuts.
fn written() -> &'static [Row] {
    &[
        (Page::P8192, "write /a 0 8192", "put 2 0 8192"),
        (Page::P8192, "write /a 0 8193", "put 2 0 8192, put 2 8192 1"),
        (
            Page::P8192,
            "write /a 8191 2",
            "zero 2 8181, put 2 8191 1, put 2 8192 1",
        ),
        (Page::P8192, "write /a 0 6464", "put 2 0 6464"),
        (
            Page::P8192,
            "write /a 0 6465",
            "put 2 0 4096, put 2 4096 2369",
        ),
        (Page::P8192, "write /a 0 6466", "put 2 0 6466"),
        (Page::P16384, "write /a 0 16384", "put 2 0 16384"),
        (
            Page::P16384,
            "write /a 4000 200",
            "zero 2 3990, put 2 4000 200",
        ),
        (
            Page::P16384,
            "write /a 9919 6470",
            "zero 2 9909, put 2 9919 4096, put 2 14015 2369, put 2 16384 5",
        ),
        (
            Page::P4096,
            "write /a 0 6465",
            "put 2 0 4096, put 2 4096 2369",
        ),
        (Page::P16384, "truncate /a 20000", "zero 2 19990"),
        (Page::P16384, "write / 0 1", "O1 BadPath"),
    ]
}

/// New files.
fn made() -> &'static [Row] {
    &[
        (
            Page::P8192,
            "file /x 644 8193",
            "make 100644 5 6 [8192], put 58 8192 1, set 1 x 58",
        ),
        (
            Page::P8192,
            "file /x 644 6464",
            "make 100644 5 6 [6464], set 1 x 58",
        ),
        (
            Page::P8192,
            "file /x 644 6465",
            "make 100644 5 6 [4096], put 58 4096 2369, set 1 x 58",
        ),
        (
            Page::P8192,
            "file /x 644 14657",
            "make 100644 5 6 [8192], put 58 8192 4096, put 58 12288 2369, set 1 x 58",
        ),
        (
            Page::P16384,
            "file /x 644 16384",
            "make 100644 5 6 [16384], set 1 x 58",
        ),
    ]
}

fn agree(rt: &impl Abort, alloc: Global, index: &Index, rows: &[Row]) -> Result<(), Fail> {
    for &(page, line, wanted) in rows {
        let found = answer_by(alloc, index, line, page)?;
        equal_at(rt, found.as_str(), wanted, line);
    }
    Ok(())
}

/// A piece of 6,465 bytes is two puts, since its node's length would spell the magic of a header.
#[test]
fn bytes_are_cut_at_pages(rt: HostRuntime) -> Result<(), Fail> {
    let index = index_of(rt.alloc(), small())?;
    agree(&rt, rt.alloc(), &index, written())?;
    agree(&rt, rt.alloc(), &index, made())
}

#[test]
fn pages_have_sizes(rt: HostRuntime) -> Result<(), Fail> {
    equal(&rt, Page::P4096.size(), 4096);
    equal(&rt, Page::P8192.size(), 8192);
    equal(&rt, Page::P16384.size(), 16_384);
    Ok(())
}
