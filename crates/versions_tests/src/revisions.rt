//! Revisions of worked images.

use crate::checks::{equal, equal_at, expect, expect_at};
use crate::images::{Case, IMAGES, Item, WRITTEN, image_of};
use byteorder::{BigEndian, LittleEndian};
use jnode::Order;
use jscan::Geometry;
use jthrough::ViewFault;
use jversions::{Revision, RevisionFault, put_revision};
use std::alloc::Global;
use std::process::Abort;
use std::test::Fail;
use test_support::Taker;

const GEOMETRY: Geometry = Geometry { block: 4096 };

/// Whether just this comes of a revision of an image.
fn is_case<E: Order>(alloc: Global, image: &[u8], case: Case) -> bool {
    let (ino, version, wanted) = case;
    let mut sink = Taker::new(alloc);
    let revision = Revision { ino, version };
    let answer = put_revision::<E, _>(alloc, image, GEOMETRY, revision, &mut sink);
    match wanted {
        Ok(bytes) => answer == Ok(()) && sink.took(0, bytes),
        Err(fault) => answer == Err(fault) && sink.took(0, b""),
    }
}

/// Looks at all of these revisions of the image of some nodes.
fn try_cases<E: Order>(
    rt: &impl Abort,
    alloc: Global,
    items: &[Item],
    cases: &[Case],
) -> Result<(), &'static str> {
    let image = image_of::<E>(alloc, items)?;
    for &case in cases {
        expect_at(rt, is_case::<E>(alloc, &image, case), (case.0, case.1));
    }
    Ok(())
}

#[test]
fn each_revision_has_its_bytes(rt: HostRuntime) -> Result<(), Fail> {
    for &(items, cases) in IMAGES.iter() {
        try_cases::<LittleEndian>(&rt, rt.alloc(), items, cases)?;
        try_cases::<BigEndian>(&rt, rt.alloc(), items, cases)?;
    }
    Ok(())
}

/// A sink that fails has a beginning of the bytes.
#[test]
fn a_beginning_is_put(rt: HostRuntime) -> Result<(), Fail> {
    let image = image_of::<LittleEndian>(rt.alloc(), &WRITTEN)?;
    let revision = Revision { ino: 5, version: 4 };
    let mut short = Taker::limited(rt.alloc(), 2, 3);
    let answer = put_revision::<LittleEndian, _>(
        rt.alloc(),
        &image,
        GEOMETRY,
        revision,
        &mut short,
    );
    equal(&rt, answer, Err(RevisionFault::Output));
    expect(&rt, short.took(1, b"abX"));
    Ok(())
}

/// An image that cannot be scanned is refused, and nothing is put.
#[test]
fn unreadable_is_refused(rt: HostRuntime) -> Result<(), Fail> {
    let image = image_of::<LittleEndian>(rt.alloc(), &WRITTEN)?;
    let revision = Revision { ino: 5, version: 4 };
    let mut sink = Taker::new(rt.alloc());
    let odd = Geometry { block: 4095 };
    let answer = put_revision::<LittleEndian, _>(rt.alloc(), &image, odd, revision, &mut sink);
    let wanted = Err(RevisionFault::Refused(ViewFault::BlockSize));
    equal_at(&rt, answer, wanted, "4095");
    expect(&rt, sink.took(0, b""));
    Ok(())
}
