//! What is told of an image takes no memory.

use crate::checks::{equal, expect_at};
use crate::info::infos::image_of;
use crate::info::rows::{ROWS, Row};
use jinfo::{InfoFault, put_info};
use std::alloc::Global;
use test_support::Matcher;

/// Why the lines of a row are not told; none where they are, or where there is no memory for its
/// image.
fn fault(alloc: Global, row: &Row) -> Option<InfoFault> {
    let image = image_of(alloc, row).ok()?;
    let mut sink = Matcher {
        rest: row.text.as_bytes(),
        failures: 0,
    };
    match put_info(&image, &mut sink) {
        Ok(_) if sink.rest.is_empty() => None,
        Ok(_) => Some(InfoFault::Output),
        Err(fault) => Some(fault),
    }
}

/// Passes with each allocation failing in turn too: only the image wants memory.
#[test]
fn no_growth_is_wanted(rt: HostRuntime) {
    for row in &ROWS {
        let fault = fault(rt.alloc(), row);
        expect_at(&rt, fault.is_none(), row.name);
        equal(&rt, fault, None);
    }
}
