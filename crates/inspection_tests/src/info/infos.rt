//! What is told of each image.

use crate::checks::{equal, expect_at};
use crate::info::rows::{ROWS, Row};
use flashbase::FromWriter;
use jinfo::{InfoFault, info_of, put_info};
use jnode::Endian;
use jscan::GREATEST_IMAGE;
use std::alloc::{AllocError, Global};
use std::test::Fail;
use test_support::Counter;

/// The image of a row.
pub(crate) fn image_of(alloc: Global, row: &Row) -> Result<Vec<u8>, AllocError> {
    let mut image = Vec::new(alloc);
    image.resize(row.len, 0xFF)?;
    for (addr, bytes) in row.nodes {
        let from = (*addr).min(image.len());
        let end = (from + bytes.len()).min(image.len());
        image[from..end].copy_from_slice(&bytes[..end - from]);
    }
    Ok(image)
}

/// The lines of an image as one text, and its byte order.
pub(crate) fn told(alloc: Global, image: &[u8]) -> Result<(Vec<u8>, Option<Endian>), InfoFault> {
    let mut sink = FromWriter::new(Vec::new(alloc));
    let order = put_info(image, &mut sink)?;
    Ok((sink.into_writer(), order))
}

/// The byte order that a text tells.
fn order_in(text: &str) -> Option<Endian> {
    if text.contains("\norder little ") {
        Some(Endian::Little)
    } else if text.contains("\norder big ") {
        Some(Endian::Big)
    } else {
        None
    }
}

/// Whether a row's lines and its order are told.
fn is_told(alloc: Global, row: &Row) -> bool {
    let Ok(image) = image_of(alloc, row) else {
        return false;
    };
    if image.len() > GREATEST_IMAGE {
        return false;
    }
    match told(alloc, &image) {
        Ok((text, order)) => {
            let info = info_of(&image);
            text.as_slice() == row.text.as_bytes()
                && order == order_in(row.text)
                && info.order == order
        }
        Err(_) => false,
    }
}

#[test]
fn each_image_tells_its_lines(rt: HostRuntime) {
    for row in &ROWS {
        expect_at(&rt, is_told(rt.alloc(), row), row.name);
    }
}

#[test]
fn a_long_image_is_refused(rt: HostRuntime) -> Result<(), Fail> {
    let image = vec![in rt.alloc(); 0xFF; GREATEST_IMAGE + 1]?;
    let mut sink = Counter { taken: 0 };
    equal(&rt, put_info(&image, &mut sink), Err(InfoFault::TooLarge));
    equal(&rt, sink.taken, 0);
    Ok(())
}
