//! A growth that is refused changes nothing.

use crate::checks::equal;
use crate::frag::pieces::{fifty_ones, first_bytes, worked_bytes, worked_piece};
use jfrag::{FragOverlay, Overlay, PlainOverlay, overlay};
use std::alloc::{AllocError, Global};
use std::process::Abort;
use std::test::Fail;

/// Lays one piece. Where that is refused, what was visible still is visible, and it can be laid
/// then.
fn is_added_or_stays<'a, O: Overlay<'a>>(
    rt: &impl Abort,
    overlaid: &mut O,
    version: u32,
    offset: u32,
) -> Result<(), Fail> {
    let offset = offset % 50;
    let before = first_bytes(overlaid);
    let stored = overlaid.pieces();
    if overlaid.add(fifty_ones(version, offset)).is_err() {
        equal(rt, first_bytes(overlaid), before);
        equal(rt, overlaid.pieces(), stored);
        overlaid.add(fifty_ones(version, offset))?;
    }
    let after = first_bytes(overlaid);
    let start = offset as usize;
    equal(rt, (after[start], after[start + 49]), (11, 11));
    Ok(())
}

/// Forty pieces of seven versions. One `add` is refused under `rt try --test --fail-alloc N`.
fn grows_or_stays<'a, O: Overlay<'a>>(rt: &impl Abort, alloc: Global) -> Result<(), Fail> {
    let mut overlaid = O::new(alloc);
    for round in 0..40u32 {
        is_added_or_stays(rt, &mut overlaid, round % 7, round * 37)?;
    }
    Ok(())
}

#[test]
fn a_refused_frag_add_changes_nothing(rt: HostRuntime) -> Result<(), Fail> {
    grows_or_stays::<FragOverlay>(&rt, rt.alloc())
}

#[test]
fn a_refused_plain_add_changes_nothing(rt: HostRuntime) -> Result<(), Fail> {
    grows_or_stays::<PlainOverlay>(&rt, rt.alloc())
}

/// All of the pieces at once: where a growth is refused there is no overlay, and asked again it is
/// right.
#[test]
fn a_refused_overlay_is_asked_for_again(rt: HostRuntime) -> Result<(), Fail> {
    let pieces = [worked_piece(1), worked_piece(3), worked_piece(2)];
    let first: Result<FragOverlay, AllocError> = overlay(rt.alloc(), &pieces);
    let overlaid = match first {
        Ok(overlaid) => overlaid,
        Err(AllocError) => overlay(rt.alloc(), &pieces)?,
    };
    equal(&rt, first_bytes(&overlaid), worked_bytes());
    Ok(())
}
