//! A growth that is refused is told as such, and nothing is put.

use crate::checks::equal;
use crate::damage::flips::{GEOMETRY, flipped, flipped_of, rows};
use crate::damage::several_names::cases;
use byteorder::LittleEndian;
use jdamage::{DamageFault, put_damage};
use jmount::mount;
use std::alloc::Global;
use test_support::Matcher;

/// Why not all lines on an image are put, and whether some are; none where all are.
fn fault(alloc: Global, image: &[u8], text: &str) -> Option<(DamageFault, bool)> {
    let Ok(mounted) = mount::<LittleEndian>(alloc, image, GEOMETRY) else {
        return Some((DamageFault::OutOfMemory, false));
    };
    let mut sink = Matcher {
        rest: text.as_bytes(),
        failures: 0,
    };
    match put_damage::<LittleEndian, Matcher<'_>>(alloc, &mounted, GEOMETRY, &mut sink) {
        Ok(_) if sink.rest.is_empty() => None,
        Ok(_) => Some((DamageFault::Output, true)),
        Err(fault) => Some((fault, sink.rest.len() < text.len())),
    }
}

/// Passes with each allocation failing in turn too: memory is then blamed and nothing is put, and
/// the same call puts all lines as if there had been none before.
#[test]
fn refused_growth_of_damage(rt: HostRuntime) {
    for &(places, text, _) in rows() {
        let Ok(image) = flipped(rt.alloc(), places) else {
            return;
        };
        if let Some(why) = fault(rt.alloc(), &image, text) {
            equal(&rt, why, (DamageFault::OutOfMemory, false));
            equal(&rt, fault(rt.alloc(), &image, text), None);
        }
    }
}

/// The same where a walk finds out by which names directories are entered.
#[test]
fn refused_growth_of_walked_damage(rt: HostRuntime) {
    for &(nodes, places, text, _) in cases() {
        let Ok(image) = flipped_of(rt.alloc(), nodes, places) else {
            return;
        };
        if let Some(why) = fault(rt.alloc(), &image, text) {
            equal(&rt, why, (DamageFault::OutOfMemory, false));
            equal(&rt, fault(rt.alloc(), &image, text), None);
        }
    }
}
