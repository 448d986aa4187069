//! What is put of an image with bytes in its row.

use crate::checks::{equal_at, expect_at};
use crate::row::images::*;
use byteorder::LittleEndian;
use jrow::{Row, RowOnFlash, put_with_row, written_len};
use std::alloc::Global;
use std::test::Fail;
use test_support::Taker;

/// So many bytes, and those behind them.
fn bytes_of(alloc: Global, runs: &[(u8, usize)]) -> Result<Vec<u8>, Fail> {
    let mut bytes = Vec::new(alloc);
    for &(byte, count) in runs {
        bytes.resize(bytes.len().wrapping_add(count), byte)?;
    }
    Ok(bytes)
}

/// How long an image of four blocks, of which the third is taken, is with these bytes in its row;
/// and what goes out of its first `len` bytes to a sink that takes `limit`.
fn put(alloc: Global, written: &[u8], len: usize, limit: usize) -> Result<(usize, Taker), Fail> {
    let image = image_of(alloc, THIRD_TAKEN)?;
    let row = Row::of::<LittleEndian>(alloc, &image, GEOMETRY, 4)?;
    let Some(room) = row.len().checked_mul(8192) else {
        return Err(Fail::from("no row"));
    };
    if room < written.len() {
        return Err(Fail::from("no room"));
    }
    let flash = RowOnFlash {
        geometry: GEOMETRY,
        blocks: 4,
        row: &row,
    };
    let mut sink = Taker::limited(alloc, usize::MAX, limit);
    let is_put = put_with_row(&mut sink, &flash, &image, written, len).is_ok();
    if is_put == (sink.failures == 0) {
        Ok((written_len(&flash, &image, written), sink))
    } else {
        Err(Fail::from("a fault without a failure"))
    }
}

/// Bytes that fill the first two blocks of the row, and begin the last.
fn written(alloc: Global) -> Result<Vec<u8>, Fail> {
    bytes_of(alloc, &[(b'a', 8192), (b'b', 8192), (b'c', 3)])
}

/// What they make of the image, up to the end of the flash.
fn wanted(alloc: Global) -> Result<Vec<u8>, Fail> {
    let mut image = bytes_of(alloc, &[(b'a', 8192), (b'b', 8192)])?;
    image.extend_from_slice(MARKER_AND_ENTRY)?;
    image.resize(24576, 0xFF)?;
    image.extend_from_slice(b"ccc")?;
    image.resize(32768, 0xFF)?;
    Ok(image)
}

/// Up to which byte of the flash is put, and how much goes out then.
fn lengths() -> &'static [(usize, usize)] {
    &[
        (0, 0),
        (1, 1),
        (8192, 8192),
        (16385, 16385),
        (16437, 16437),
        (24578, 24578),
        (24579, 24579),
        (32768, 32768),
        (40000, 32768),
    ]
}

#[test]
fn bytes_go_to_the_blank_blocks(rt: HostRuntime) -> Result<(), Fail> {
    let bytes = written(rt.alloc())?;
    let whole = wanted(rt.alloc())?;
    for &(len, count) in lengths() {
        let (end, sink) = put(rt.alloc(), &bytes, len, usize::MAX)?;
        equal_at(&rt, (end, sink.bytes.len()), (24579, count), len);
        expect_at(&rt, whole.starts_with(&sink.bytes), len);
    }
    Ok(())
}

/// Bytes in the row, and how long the image is with them: the image itself ends at 16437.
fn ends() -> &'static [(usize, usize)] {
    &[
        (0, 16437),
        (1, 16437),
        (8192, 16437),
        (16384, 16437),
        (16385, 24577),
        (24576, 32768),
    ]
}

#[test]
fn an_image_ends_with_its_last_byte(rt: HostRuntime) -> Result<(), Fail> {
    for &(count, wanted) in ends() {
        let bytes = bytes_of(rt.alloc(), &[(b'a', count)])?;
        let (end, sink) = put(rt.alloc(), &bytes, 32768, usize::MAX)?;
        equal_at(&rt, (end, sink.bytes.len()), (wanted, 32768), count);
        let rest = sink.bytes.get(wanted..).ok_or("no rest")?;
        expect_at(&rt, rest.iter().all(|byte| *byte == 0xFF), count);
        equal_at(
            &rt,
            sink.bytes.get(16384..16388),
            Some(b"\x85\x19\x03\x20".as_slice()),
            count,
        );
    }
    Ok(())
}

/// How much a sink takes before it fails.
fn limits() -> &'static [usize] {
    &[0, 1, 8192, 16384, 16436, 20000, 24578]
}

#[test]
fn a_sink_that_fails_took_a_beginning(rt: HostRuntime) -> Result<(), Fail> {
    let bytes = written(rt.alloc())?;
    let whole = wanted(rt.alloc())?;
    for &limit in limits() {
        let (end, sink) = put(rt.alloc(), &bytes, 24579, limit)?;
        equal_at(&rt, (end, sink.bytes.len()), (24579, limit), limit);
        equal_at(&rt, sink.failures, 1, limit);
        expect_at(&rt, whole.starts_with(&sink.bytes), limit);
    }
    Ok(())
}
