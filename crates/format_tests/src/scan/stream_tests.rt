//! Blocks and counts of worked sources, cut in several ways, and of sources that fail.

use crate::checks::{equal, equal_at, expect, expect_at};
use crate::scan::bytes::*;
use byteorder::{BigEndian, LittleEndian};
use flashbase::FromReader;
use jscan::{BlockReader, Counts, GREATEST_BLOCK, Geometry, StreamFault, scan_stream};
use std::alloc::Global;
use std::process::Abort;
use std::test::Fail;
use test_support::{ENTRY_A, Giver, INODE_2, LITTLE_MARKER, Long};

const SMALL: Geometry = Geometry { block: 4096 };

/// How many bytes the sources of these tests give a call.
const CUTS: [usize; 4] = [1, 3, 4095, usize::MAX];

/// Sources of a length, with these bytes, and how many blocks, entries, inode nodes and findings
/// are counted.
fn sources() -> &'static [(usize, Pieces, [u64; 4])] {
    &[
        (4137, TWO_ENTRIES, [2, 2, 0, 0]),
        (4140, TWO_ENTRIES, [2, 2, 0, 0]),
        (8192, &[Piece(4056, &ENTRY_A)], [2, 0, 0, 2]),
        (
            80,
            &[Piece(0, &LITTLE_MARKER), Piece(12, &INODE_2)],
            [1, 0, 1, 0],
        ),
        (0, &[], [0, 0, 0, 0]),
    ]
}

fn counts(counted: [u64; 4]) -> Counts {
    let [blocks, entries, inodes, findings] = counted;
    Counts {
        blocks,
        entries,
        inodes,
        findings,
    }
}

/// What is answered of a source, what is counted, and of the source that comes back its failures
/// and how many bytes it has left.
type Answer = (Result<(), StreamFault>, Counts, Option<(u64, usize)>);

fn streamed(alloc: Global, source: Giver<'_>, geometry: Geometry) -> Answer {
    let mut counted = counts([9, 9, 9, 9]);
    let (result, left) = scan_stream::<LittleEndian, _>(alloc, source, geometry, &mut counted);
    (result, counted, left.map(|it| (it.failures, it.rest.len())))
}

/// Stops the test unless a source is counted so, whatever it gives a call.
fn is_counted(rt: &impl Abort, alloc: Global, image: &[u8], want: [u64; 4]) {
    for piece in CUTS {
        let answer = streamed(alloc, Giver::limited(image, piece, usize::MAX), SMALL);
        equal_at(rt, answer, (Ok(()), counts(want), Some((0, 0))), piece);
    }
}

#[test]
fn counts_do_not_depend_on_the_cut(rt: HostRuntime) -> Result<(), Fail> {
    for &(len, pieces, want) in sources() {
        let image = flash(rt.alloc(), len, pieces)?;
        is_counted(&rt, rt.alloc(), &image, want);
    }
    Ok(())
}

#[test]
fn runs_count_once_each(rt: HostRuntime) {
    let mut counted = counts([0, 0, 0, 0]);
    let source = FromReader::new(ENTRY_A.as_slice());
    let (result, _) = scan_stream::<BigEndian, _>(rt.alloc(), source, SMALL, &mut counted);
    equal(&rt, (result, counted), (Ok(()), counts([1, 0, 0, 2])));
}

#[test]
fn blocks_are_those_of_the_bytes(rt: HostRuntime) -> Result<(), Fail> {
    let image = flash(rt.alloc(), 4137, TWO_ENTRIES)?;
    let filled = flash(rt.alloc(), 8192, TWO_ENTRIES)?;
    for piece in CUTS {
        let source = Giver::limited(&image, piece, usize::MAX);
        let mut reader = BlockReader::new(rt.alloc(), source, SMALL)?;
        for want in [filled.get(..4096), filled.get(4096..), None, None] {
            expect_at(&rt, reader.next()? == want, piece);
        }
        expect(&rt, reader.into_source().rest.is_empty());
    }
    Ok(())
}

/// Stops the test unless a source that fails after 4,100 bytes gives one block, and fails then
/// however often it is asked.
fn fails_in_the_second_block(
    rt: &impl Abort,
    alloc: Global,
    image: &[u8],
    piece: usize,
) -> Result<(), Fail> {
    let device = Err(StreamFault::Device);
    let mut reader = BlockReader::new(alloc, Giver::limited(image, piece, 4100), SMALL)?;
    for want in [Ok(image.get(..4096)), device, device] {
        expect_at(rt, reader.next() == want, piece);
    }
    let left = reader.into_source();
    equal(rt, (left.failures, left.rest.len()), (1, 37));
    Ok(())
}

#[test]
fn a_device_fails_in_the_second_block(rt: HostRuntime) -> Result<(), Fail> {
    let image = flash(rt.alloc(), 4137, TWO_ENTRIES)?;
    for piece in CUTS {
        fails_in_the_second_block(&rt, rt.alloc(), &image, piece)?;
        let answer = streamed(rt.alloc(), Giver::limited(&image, piece, 4100), SMALL);
        equal(&rt, answer, failed(1, 37));
    }
    Ok(())
}

/// The answer of a source that failed after so many blocks of one entry each, and has so many bytes
/// left.
fn failed(blocks: u64, left: usize) -> Answer {
    let counted = counts([blocks, blocks, 0, 0]);
    (Err(StreamFault::Device), counted, Some((1, left)))
}

/// Stops the test unless a source that fails at this call gives so many blocks, and fails then
/// however often it is asked.
fn fails_once(
    rt: &impl Abort,
    alloc: Global,
    image: &[u8],
    calls: usize,
    blocks: u64,
) -> Result<(), Fail> {
    let mut reader = BlockReader::new(alloc, Giver::failing(image, 2048, calls), SMALL)?;
    for _ in 0..blocks {
        expect(rt, reader.next()?.is_some());
    }
    for _ in 0..2 {
        expect_at(rt, reader.next() == Err(StreamFault::Device), calls);
    }
    equal(rt, reader.into_source().failures, 1);
    Ok(())
}

/// The call at which the source fails, and how many blocks it gave before: the first is given in
/// two calls, the second in one, and a fourth tells that there are no more.
fn failing_calls() -> &'static [(usize, u64)] {
    &[(0, 0), (1, 0), (2, 1), (3, 1)]
}

#[test]
fn a_device_fails_once(rt: HostRuntime) -> Result<(), Fail> {
    let image = flash(rt.alloc(), 4137, TWO_ENTRIES)?;
    for &(calls, blocks) in failing_calls() {
        fails_once(&rt, rt.alloc(), &image, calls, blocks)?;
        let answer = streamed(rt.alloc(), Giver::failing(&image, 2048, calls), SMALL);
        let left = image.len().saturating_sub(calls.saturating_mul(2048));
        equal(&rt, answer, failed(blocks, left));
    }
    let whole = streamed(rt.alloc(), Giver::failing(&image, 2048, 4), SMALL);
    equal(&rt, whole, (Ok(()), counts([2, 2, 0, 0]), Some((0, 0))));
    Ok(())
}

/// The size of a block, how many bytes a source has, how many blocks it gives, and whether it is
/// too large.
fn large_sources() -> &'static [(u32, usize, u32, bool)] {
    &[
        (GREATEST_BLOCK, 268_435_456, 64, false),
        (4_194_300, 268_435_456, 65, false),
        (GREATEST_BLOCK, 268_435_457, 64, true),
        (4_194_300, 268_435_457, 64, true),
    ]
}

/// Whether a source of so many bytes gives so many blocks and ends then, or is too large, however
/// often it is asked.
fn ends_so(
    alloc: Global,
    left: usize,
    block: u32,
    blocks: u32,
    is_too_large: bool,
) -> Result<bool, Fail> {
    let mut reader = BlockReader::new(alloc, Long { left }, Geometry { block })?;
    let mut same = true;
    for _ in 0..blocks {
        same = same && reader.next()?.is_some();
    }
    for _ in 0..2 {
        same = same
            && match reader.next() {
                Ok(None) => !is_too_large,
                Err(StreamFault::TooLarge) => is_too_large,
                _ => false,
            };
    }
    Ok(same)
}

#[test]
fn a_source_is_too_large(rt: HostRuntime) -> Result<(), Fail> {
    for &(block, left, blocks, is_too_large) in large_sources() {
        let is_so = ends_so(rt.alloc(), left, block, blocks, is_too_large)?;
        expect_at(&rt, is_so, (block, left));
    }
    Ok(())
}

#[test]
fn block_sizes_that_are_not_read(rt: HostRuntime) {
    for block in [0, 4092, 4098, GREATEST_BLOCK + 4] {
        let source = Giver::limited(&ENTRY_A, 1, usize::MAX);
        let answer = streamed(rt.alloc(), source, Geometry { block });
        let none = (Err(StreamFault::BlockSize), counts([0, 0, 0, 0]), None);
        equal(&rt, answer, none);
    }
}
