//! Sinks that fail at each byte of the lines.

use crate::checks::{equal, expect_at};
use crate::info::infos::image_of;
use crate::info::rows::{ROWS, Row};
use jinfo::{Container, InfoFault, put_container_note, put_info};
use std::alloc::Global;
use test_support::Taker;

const NOTE: &[u8] = b"jffs2_image: note: the file begins as UBI does\n";

/// Whether the lines of an image go out as far as a sink takes them, and its failure is told.
fn is_cut(alloc: Global, image: &[u8], text: &[u8], limit: usize) -> bool {
    let mut sink = Taker::limited(alloc, 7, limit);
    let answer = put_info(image, &mut sink);
    match text.get(..limit) {
        Some(wanted) => answer == Err(InfoFault::Output) && sink.took(1, wanted),
        None => false,
    }
}

/// The first limit at which a sink that fails is not told so.
fn wrong_cut(alloc: Global, row: &Row) -> Option<usize> {
    let image = image_of(alloc, row).ok()?;
    let text = row.text.as_bytes();
    (0..text.len()).find(|limit| !is_cut(alloc, &image, text, *limit))
}

#[test]
fn failing_sinks_are_told(rt: HostRuntime) {
    for row in &ROWS[..4] {
        equal(&rt, wrong_cut(rt.alloc(), row), None);
    }
    for limit in 0..NOTE.len() {
        let mut sink = Taker::limited(rt.alloc(), 7, limit);
        let answer = put_container_note(Some(Container::Ubi), &mut sink);
        expect_at(&rt, answer.is_err() && sink.took(1, &NOTE[..limit]), limit);
    }
}
