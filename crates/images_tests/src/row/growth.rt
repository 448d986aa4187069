//! A growth that is refused is told as such.

use crate::checks::expect;
use crate::row::images::*;
use byteorder::LittleEndian;
use jrow::Row;
use std::alloc::Global;

/// Whether the row is that of the image, and nothing where a growth is refused.
fn is_found(alloc: Global, image: &[u8]) -> Option<bool> {
    let row = Row::of::<LittleEndian>(alloc, image, GEOMETRY, 4).ok()?;
    Some(row.as_slice() == [0, 1, 3].as_slice())
}

/// Passes with each allocation failing in turn too: the same call answers then as if there had been
/// none before.
#[test]
fn refused_growth_of_rows(rt: HostRuntime) {
    let Ok(image) = image_of(rt.alloc(), THIRD_TAKEN) else {
        return;
    };
    let first = is_found(rt.alloc(), &image);
    let answer = first.or_else(|| is_found(rt.alloc(), &image));
    expect(&rt, answer == Some(true));
}
