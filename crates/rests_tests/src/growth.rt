//! A growth that is refused is told as such.

use crate::checks::expect;
use crate::images::*;
use byteorder::LittleEndian;
use jrests::{openings_of, rests_of};
use std::alloc::Global;

/// Blank blocks around a begun one.
const FRONTS: &[&[u8]] = &[b"", b"", MARKED];

/// Whether the openings are those of the image, and nothing where a growth is refused.
fn are_found(alloc: Global, image: &[u8]) -> Option<bool> {
    let found = openings_of::<LittleEndian>(alloc, image, GEOMETRY, 4).ok()?;
    Some(is_same(&found, &[0, 1, 2, 3], &[0, 0, 56, 0]))
}

/// The same of the rests alone.
fn are_rests(alloc: Global, image: &[u8]) -> Option<bool> {
    let found = rests_of::<LittleEndian>(alloc, image, GEOMETRY, 4).ok()?;
    Some(is_same(&found, &[2], &[56]))
}

/// Passes with each allocation failing in turn too: the same call answers then as if there had been
/// none before.
#[test]
fn refused_growth_of_openings(rt: HostRuntime) {
    let Ok(image) = image_of(rt.alloc(), FRONTS) else {
        return;
    };
    let first = are_found(rt.alloc(), &image);
    let answer = first.or_else(|| are_found(rt.alloc(), &image));
    expect(&rt, answer == Some(true));
}

/// The same for rests.
#[test]
fn refused_growth_of_rests(rt: HostRuntime) {
    let Ok(image) = image_of(rt.alloc(), FRONTS) else {
        return;
    };
    let first = are_rests(rt.alloc(), &image);
    let answer = first.or_else(|| are_rests(rt.alloc(), &image));
    expect(&rt, answer == Some(true));
}
