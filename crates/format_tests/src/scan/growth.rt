//! A growth that is refused is told as such.

use crate::checks::{equal, expect};
use byteorder::LittleEndian;
use jscan::{
    BlockReader, Counts, Geometry, ScanFault, Sightings, StreamFault, scan, scan_stream,
    scan_to_refusal,
};
use std::alloc::Global;
use test_support::{Giver, MADE};

const GEOMETRY: Geometry = Geometry { block: 4096 };

/// Why an image of two nodes is not scanned; none where it is as it should be.
fn scan_fault(alloc: Global) -> Option<ScanFault> {
    match scan::<LittleEndian>(alloc, &MADE, GEOMETRY) {
        Ok(scan) if scan.nodes.len() == 2 => None,
        Ok(_) => Some(ScanFault::TooLarge),
        Err(fault) => Some(fault),
    }
}

fn refusal_fault(alloc: Global) -> Option<ScanFault> {
    match scan_to_refusal::<LittleEndian>(alloc, &MADE, GEOMETRY) {
        Ok(scan) if scan.nodes.len() == 2 => None,
        Ok(_) => Some(ScanFault::TooLarge),
        Err(fault) => Some(fault),
    }
}

/// Passes with each allocation failing in turn too: memory is then blamed, and the same call
/// succeeds. Sightings take none.
#[test]
fn refused_scans_are_want_of_memory(rt: HostRuntime) {
    if let Some(fault) = scan_fault(rt.alloc()) {
        equal(&rt, fault, ScanFault::OutOfMemory);
        equal(&rt, scan_fault(rt.alloc()), None);
    }
    if let Some(fault) = refusal_fault(rt.alloc()) {
        equal(&rt, fault, ScanFault::OutOfMemory);
        equal(&rt, refusal_fault(rt.alloc()), None);
    }
    expect(&rt, Sightings::<LittleEndian>::new(&MADE, GEOMETRY).is_ok());
}

/// Why a source is not counted; none where its counts are right.
fn stream_fault(alloc: Global) -> Option<StreamFault> {
    let mut counts = Counts {
        blocks: 0,
        entries: 0,
        inodes: 0,
        findings: 0,
    };
    let source = Giver::failing(&MADE, 1, usize::MAX);
    match scan_stream::<LittleEndian, _>(alloc, source, GEOMETRY, &mut counts) {
        (Ok(()), Some(_)) if (counts.blocks, counts.entries, counts.inodes) == (1, 1, 1) => None,
        (Err(StreamFault::OutOfMemory), None) if counts.blocks == 0 => {
            Some(StreamFault::OutOfMemory)
        }
        _ => Some(StreamFault::TooLarge),
    }
}

/// Why the blocks of a source are not given. The source is read only once the reader has its one
/// buffer.
fn reader_fault(alloc: Global) -> Option<StreamFault> {
    match BlockReader::new(alloc, Giver::failing(&MADE, 1, usize::MAX), GEOMETRY) {
        Ok(mut reader) => match reader.next() {
            Ok(Some(block)) if block.starts_with(&MADE) => None,
            _ => Some(StreamFault::TooLarge),
        },
        Err(fault) => Some(fault),
    }
}

/// Passes with each allocation failing in turn too.
#[test]
fn refused_streams_are_want_of_memory(rt: HostRuntime) {
    if let Some(fault) = reader_fault(rt.alloc()) {
        equal(&rt, fault, StreamFault::OutOfMemory);
        equal(&rt, reader_fault(rt.alloc()), None);
    }
    if let Some(fault) = stream_fault(rt.alloc()) {
        equal(&rt, fault, StreamFault::OutOfMemory);
        equal(&rt, stream_fault(rt.alloc()), None);
    }
}
