//! A growth that is refused is told as such.

use crate::checks::equal;
use crate::diff::pairs::{
    AGAIN, AGAIN_ADDED, AGAIN_LINES, CHANGED, DEVICES, GEOMETRY, LEFT, NUMBERS, ONCE,
    OTHER_DEVICES, RIGHT, image_of,
};
use byteorder::LittleEndian;
use jdiff::{Comparing, put_differences};
use jmount::mount;
use jnode::Endian;
use jreport::ProgramFault;
use std::alloc::Global;
use test_support::{Matcher, Node};

/// The nodes of two images, and the lines on them: of trees that have their shape, and of one that
/// has it beside one that has not; and of devices.
type Row = (
    &'static [Node<'static>],
    &'static [Node<'static>],
    &'static str,
);

fn rows() -> &'static [Row] {
    &[
        (LEFT, RIGHT, CHANGED),
        (AGAIN, ONCE, AGAIN_LINES),
        (ONCE, AGAIN, AGAIN_ADDED),
        (DEVICES, OTHER_DEVICES, NUMBERS),
    ]
}

/// Why the lines on two images are not put; none where they are.
fn fault(alloc: Global, left: &[u8], right: &[u8], text: &str) -> Option<ProgramFault<'static>> {
    let Ok(one) = mount::<LittleEndian>(alloc, left, GEOMETRY) else {
        return Some(ProgramFault::OutOfMemory);
    };
    let Ok(other) = mount::<LittleEndian>(alloc, right, GEOMETRY) else {
        return Some(ProgramFault::OutOfMemory);
    };
    let mut sink = Matcher {
        rest: text.as_bytes(),
        failures: 0,
    };
    let how = Comparing {
        times: false,
        order: Endian::Little,
    };
    match put_differences(alloc, &one, &other, how, &mut sink) {
        Ok(_) if sink.rest.is_empty() => None,
        Ok(_) => Some(ProgramFault::Output),
        Err(fault) => Some(fault),
    }
}

/// Passes with each allocation failing in turn too: memory is then blamed, and the same call puts
/// all lines as if there had been none before.
#[test]
fn refused_growth_of_differences(rt: HostRuntime) {
    for &(left, right, text) in rows() {
        let Ok(one) = image_of(rt.alloc(), left) else {
            return;
        };
        let Ok(other) = image_of(rt.alloc(), right) else {
            return;
        };
        if let Some(why) = fault(rt.alloc(), &one, &other, text) {
            equal(&rt, why, ProgramFault::OutOfMemory);
            equal(&rt, fault(rt.alloc(), &one, &other, text), None);
        }
    }
}
