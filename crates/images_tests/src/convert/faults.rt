//! Images that are refused.

use crate::checks::{equal, expect};
use crate::convert::vectors::*;
use byteorder::LittleEndian;
use jconvert::{HELD_MOST, decompress, judge};
use jscan::Geometry;
use std::alloc::Global;
use std::process::Abort;
use std::test::Fail;
use test_support::Taker;

fn is_refused(
    rt: &impl Abort,
    alloc: Global,
    image: &[u8],
    block: u32,
    text: &str,
) -> Result<(), Fail> {
    let geometry = Geometry { block };
    let Err(fault) = judge::<LittleEndian>(alloc, image, geometry, HELD_MOST) else {
        panic!(rt; "not refused");
    };
    equal(rt, format!(in alloc; "{fault}")?.as_str(), text);
    let sink = Taker::new(alloc);
    let Err((same, Some(back))) = decompress::<LittleEndian, Taker>(alloc, image, geometry, sink)
    else {
        panic!(rt; "not refused");
    };
    equal(rt, same, fault);
    expect(rt, back.took(0, &[]));
    Ok(())
}

/// Images, their block sizes, and the texts of their faults.
fn refused() -> &'static [(Image, u32, &'static str)] {
    &[
        (Image::Little, 4095, "M1 BlockSize"),
        (Image::NoContent, 8192, "Z1 Data at 0000000c"),
        (
            Image::UnreadMethod,
            8192,
            "M4 Compressed at 0000000c compr 5",
        ),
        (Image::TooLong, 8192, "Z2 TooLong at 0000000c"),
        (Image::Incompatible, 8192, "Z1 Data at 0000000c"),
        (Image::ReadOnly, 8192, "S3 ReadOnly"),
        (Image::ReadOnly, 4096, "S3 ReadOnly"),
        (Image::Little, 4096, "S7 Geometry"),
    ]
}

#[test]
fn images_are_refused(rt: HostRuntime) -> Result<(), Fail> {
    for &(image, block, text) in refused() {
        is_refused(&rt, rt.alloc(), image.bytes(), block, text)?;
    }
    Ok(())
}
