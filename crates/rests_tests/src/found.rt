//! Openings that are found: blank blocks, and the rests of begun ones.

use crate::checks::expect_at;
use crate::images::*;
use byteorder::{BigEndian, LittleEndian};
use jrests::{openings_of, rests_of};
use std::alloc::{AllocError, Global};
use std::test::Fail;

/// How the blocks of an image begin, and the blocks and places of its openings on a flash of four
/// blocks, in little order; and those of its rests alone.
struct Found {
    about: &'static str,
    fronts: &'static [&'static [u8]],
    openings: &'static [u32],
    places: &'static [u32],
    rests: &'static [u32],
    behind: &'static [u32],
}

/// Behind the last node of a begun block all is erased up to the end of that block.
fn with_rests() -> &'static [Found] {
    &[
        Found {
            about: "an erased flash",
            fronts: &[],
            openings: &[0, 1, 2, 3],
            places: &[0, 0, 0, 0],
            rests: &[],
            behind: &[],
        },
        Found {
            about: "a begun block between blank ones",
            fronts: &[b"", b"", MARKED],
            openings: &[0, 1, 2, 3],
            places: &[0, 0, 56, 0],
            rests: &[2],
            behind: &[56],
        },
        Found {
            about: "begun blocks before and behind one with no more than a marker",
            fronts: &[TWICE, b"\x85\x19\x03\x20\x0c\0\0\0\xb1\xb0\x1e\xe4", MARKED],
            openings: &[0, 1, 2, 3],
            places: &[88, 0, 56, 0],
            rests: &[0, 2],
            behind: &[88, 56],
        },
        Found {
            about: "a begun block with no marker, and the last one begun",
            fronts: &[UNMARKED, b"", b"\x85", MARKED],
            openings: &[0, 1, 2, 3],
            places: &[44, 0, 0, 56],
            rests: &[0, 3],
            behind: &[44, 56],
        },
    ]
}

/// A block with dirt, with a torn node or with a damaged one is never gone on in.
fn without_rests() -> &'static [Found] {
    &[
        Found {
            about: "dirt, a byte behind a marker, and two bytes of a header",
            fronts: &[
                b"\0",
                b"\x85\x19\x03\x20\x0c\0\0\0\xb1\xb0\x1e\xe4\xFF\0",
                b"\x85\x19\xFF\x20",
                b"",
            ],
            openings: &[3],
            places: &[0],
            rests: &[],
            behind: &[],
        },
        Found {
            about: "a damaged node, a torn one, and a begun block",
            fronts: &[DAMAGED, TORN, MARKED, b"\0"],
            openings: &[2],
            places: &[56],
            rests: &[2],
            behind: &[56],
        },
        Found {
            about: "a flash whose blocks are all dirty",
            fronts: &[b"\0", b"\0", b"\0", b"\0"],
            openings: &[],
            places: &[],
            rests: &[],
            behind: &[],
        },
    ]
}

/// Whether an image has these openings and these rests.
fn is_found(alloc: Global, wanted: &Found) -> Result<bool, AllocError> {
    let image = image_of(alloc, wanted.fronts)?;
    let all = openings_of::<LittleEndian>(alloc, &image, GEOMETRY, 4)?;
    let rests = rests_of::<LittleEndian>(alloc, &image, GEOMETRY, 4)?;
    Ok(
        is_same(&all, wanted.openings, wanted.places)
            && is_same(&rests, wanted.rests, wanted.behind),
    )
}

#[test]
fn openings_are_found(rt: HostRuntime) -> Result<(), Fail> {
    for wanted in with_rests() {
        expect_at(&rt, is_found(rt.alloc(), wanted)?, wanted.about);
    }
    Ok(())
}

#[test]
fn some_blocks_are_not_gone_on_in(rt: HostRuntime) -> Result<(), Fail> {
    for wanted in without_rests() {
        expect_at(&rt, is_found(rt.alloc(), wanted)?, wanted.about);
    }
    Ok(())
}

/// The big marker is no marker in little order, nor the little one in big: such a block is neither
/// blank nor begun.
#[test]
fn nodes_are_of_their_byte_order(rt: HostRuntime) -> Result<(), Fail> {
    let alloc = rt.alloc();
    let image = image_of(
        alloc,
        &[MARKED, b"\x19\x85\x20\x03\0\0\0\x0c\xf0\x60\xdc\x98"],
    )?;
    let little = openings_of::<LittleEndian>(alloc, &image, GEOMETRY, 2)?;
    expect_at(&rt, is_same(&little, &[0], &[56]), "little");
    let big = openings_of::<BigEndian>(alloc, &image, GEOMETRY, 2)?;
    expect_at(&rt, is_same(&big, &[1], &[0]), "big");
    Ok(())
}
