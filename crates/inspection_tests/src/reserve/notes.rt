//! The blocks that are left, and the note on them.

use crate::checks::{equal_at, expect_at};
use flashbase::Part;
use jreserve::{is_erased, linux_reserve, put_reserve_note};
use jscan::Geometry;
use std::test::Fail;
use test_support::Taker;

/// The size of a block, the number of blocks, and the reserve.
const RESERVES: [(u32, u32, u32); 5] = [
    (65536, 64, 4),
    (65536, 256, 8),
    (131072, 1024, 24),
    (8192, 10, 3),
    (4096, 0, 2),
];

#[test]
fn blocks_in_reserve(rt: HostRuntime) -> Result<(), Fail> {
    for (block, blocks, reserve) in RESERVES {
        let geometry = Geometry { block };
        expect_at(&rt, geometry.is_readable(), block);
        equal_at(&rt, linux_reserve(geometry, blocks), reserve, block);
    }
    Ok(())
}

/// The bytes that a part has, how many it lacks, and whether it is erased.
const PARTS: [(&[u8], u8, bool); 6] = [
    (b"", 0, true),
    (b"", 5, true),
    (b"\xff\xff", 0, true),
    (b"\xff\xfe", 3, false),
    (b"\x00\xff\xff", 0, false),
    (b"\xff\xff\xff", 1, true),
];

fn parts() -> &'static [(&'static [u8], u8, bool)] {
    &PARTS
}

#[test]
fn erased_parts(rt: HostRuntime) -> Result<(), Fail> {
    for &(bytes, missing, erased) in parts() {
        expect_at(
            &rt,
            is_erased(&Part::new(bytes, usize::from(missing))) == erased,
            missing,
        );
    }
    Ok(())
}

const NONE: &str = "jffs2_image: note: 0 blank blocks are left, Linux keeps 3 in reserve\n";

const ONE: &str = "jffs2_image: note: 1 blank block is left, Linux keeps 24 in reserve\n";

const SEVERAL: &str = "jffs2_image: note: 3 blank blocks are left, Linux keeps 6 in reserve\n";

#[test]
fn notes(rt: HostRuntime) -> Result<(), Fail> {
    for (left, reserve, text) in [(0, 3, NONE), (1, 24, ONE), (3, 6, SEVERAL)] {
        let mut sink = Taker::new(rt.alloc());
        put_reserve_note(left, reserve, &mut sink).map_err(|_| "no note")?;
        equal_at(&rt, sink.bytes.as_slice(), text.as_bytes(), left);
        let mut short = Taker::limited(rt.alloc(), 7, 30);
        let failed = put_reserve_note(left, reserve, &mut short).is_err();
        let front = text.as_bytes().get(..30).ok_or("short")?;
        expect_at(&rt, failed && short.took(1, front), left);
    }
    Ok(())
}
