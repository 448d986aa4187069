//! Reports of sources that give their bytes in pieces, and of sources that fail.

use crate::checks::equal;
use crate::report::images::{GEOMETRY, TWO_BLOCKS, raw_image};
use byteorder::LittleEndian;
use flashbase::{FromWriter, LoadFault, Source};
use jnode::Order;
use jreport::{ProgramFault, stream_lines};
use jscan::Geometry;
use std::alloc::Global;
use std::process::Abort;
use std::test::Fail;
use test_support::Giver;

/// What is answered of a source, and what goes out.
type Answer = (Result<u64, ProgramFault<'static>>, Vec<u8>);

fn answer_and_text<E: Order, S: Source>(alloc: Global, source: S, geometry: Geometry) -> Answer {
    let mut sink = FromWriter::new(Vec::new(alloc));
    let (answer, _) = stream_lines::<E, _, _>(alloc, source, geometry, &mut sink);
    (answer, sink.into_writer())
}

/// What is answered of the bytes up to `limit`, given in pieces.
pub(crate) fn streamed<E: Order>(
    alloc: Global,
    bytes: &[u8],
    piece: usize,
    limit: usize,
) -> Answer {
    let source = Giver::limited(bytes, piece, limit);
    answer_and_text::<E, _>(alloc, source, GEOMETRY)
}

pub(crate) const FIRST_BLOCK: &str = "block 0\n\
00000000 marker 12\n\
0000000c entry 44 pino 1 version 1 ino 2 type 8 name a\n\
00000038 erased 4040\n";

/// After how many bytes the source fails, and what is put before.
fn limits() -> &'static [(usize, &'static str)] {
    &[
        (0, ""),
        (1, ""),
        (4095, ""),
        (4096, FIRST_BLOCK),
        (4100, FIRST_BLOCK),
        (8191, FIRST_BLOCK),
    ]
}

/// Stops the test unless a source that fails is told of, whatever it gives a call.
fn is_told(rt: &impl Abort, alloc: Global, bytes: &[u8], piece: usize) {
    for &(limit, text) in limits() {
        let (answer, put) = streamed::<LittleEndian>(alloc, bytes, piece, limit);
        equal(rt, answer, Err(ProgramFault::Load(LoadFault::Device)));
        equal(rt, put.as_slice(), text.as_bytes());
    }
}

#[test]
fn a_source_that_fails(rt: HostRuntime) -> Result<(), Fail> {
    let bytes = raw_image(rt.alloc(), TWO_BLOCKS)?;
    for piece in [1, 3, 4095, 4096] {
        is_told(&rt, rt.alloc(), &bytes, piece);
    }
    Ok(())
}
