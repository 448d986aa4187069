//! A growth that is refused is told as such.

use crate::checks::{expect, expect_at};
use crate::cuts::cuts::{FLASH, WEAK_BYTES, WEAK_TOLD};
use crate::cuts::sessions::{GEOMETRY, create, write};
use byteorder::LittleEndian;
use jcuts::{CutsFault, Telling, put_cuts};
use jlog::{SessionFault, Start};
use jmount::mount;
use std::alloc::Global;
use test_support::Matcher;

/// Why operations are not told; none where they are.
fn fault(alloc: Global, start: &Start<'_, '_, LittleEndian>) -> Option<CutsFault> {
    let ops = [create(), write(WEAK_BYTES)];
    let mut sink = Matcher {
        rest: WEAK_TOLD.as_bytes(),
        failures: 0,
    };
    match put_cuts::<LittleEndian, _>(alloc, start, Telling::Nodes, &ops, &[3, 5], &mut sink) {
        Ok(1) if sink.rest.is_empty() => None,
        Ok(_) => Some(CutsFault::Output),
        Err(fault) => Some(fault),
    }
}

/// Passes with each allocation failing in turn too: memory is then blamed and not the sink, which
/// took a beginning, and the same call answers as if there had been none before.
#[test]
fn refused_growth_of_cuts(rt: HostRuntime) {
    let Ok(mounted) = mount::<LittleEndian>(rt.alloc(), &[], GEOMETRY) else {
        return;
    };
    let Ok(start) = Start::<LittleEndian>::of(&mounted, FLASH) else {
        return;
    };
    match fault(rt.alloc(), &start) {
        None => (),
        Some(
            CutsFault::Session {
                fault: SessionFault::OutOfMemory,
                ..
            },
        ) => expect(&rt, fault(rt.alloc(), &start).is_none()),
        Some(other) => expect_at(&rt, false, other),
    }
}
