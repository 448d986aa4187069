//! Larger pages: blocks that do not hold them. Where the nodes of a file go is in
//! tests/listings.py.

use crate::checks::{equal, expect};
use byteorder::LittleEndian;
use jbuild::emit;
use jlog::{SessionFault, page_fits};
use jmount::mount;
use jscan::{Geometry, Page};
use jsteps::{Op, Text};
use std::alloc::Global;
use std::test::Fail;
use test_support::Taker;

/// A file, and a byte that is written.
fn write() -> [Op<'static>; 2] {
    [
        Op::Create {
            time: 0,
            path: Text::lent(b"/a"),
            mode: 0o644,
            uid: 0,
            gid: 0,
        },
        Op::Write {
            time: 0,
            path: Text::lent(b"/a"),
            offset: 0,
            bytes: Text::lent(&[9]),
        },
    ]
}

/// Why a write into a block of so many bytes is refused by this page; none where it is not. The
/// sink comes back as it was.
fn refused(alloc: Global, page: Page, block: u32) -> Result<Option<SessionFault>, Fail> {
    let geometry = Geometry { block };
    let mounted = mount::<LittleEndian>(alloc, &[], geometry)?;
    let (ops, sink) = (write(), Taker::new(alloc));
    match emit::<LittleEndian, _>(alloc, &mounted, geometry, 1, page, &ops, sink) {
        Ok(_done) => Ok(None),
        Err((fault, sink)) if sink.took(0, &[]) => Ok(Some(fault)),
        Err(_) => Err(Fail::from("the sink is not as it was")),
    }
}

/// A page, the least block that holds it, one that is smaller, and why a write is refused there.
fn pages() -> &'static [(Page, u32, u32, Option<SessionFault>)] {
    &[
        (Page::P4096, 4176, 8192, None),
        (Page::P8192, 8272, 8268, Some(SessionFault::Geometry)),
        (Page::P16384, 16_464, 16_460, Some(SessionFault::Geometry)),
    ]
}

/// A block holds its marker, the fields of a node and a page, or the flash is not one to write.
#[test]
fn blocks_that_hold_a_page(rt: HostRuntime) -> Result<(), Fail> {
    for &(page, least, block, wanted) in pages() {
        expect(&rt, page_fits(Geometry { block: least }, page));
        let less = Geometry {
            block: least.saturating_sub(4),
        };
        expect(&rt, !page_fits(less, page));
        equal(&rt, refused(rt.alloc(), page, block)?, wanted);
    }
    Ok(())
}
