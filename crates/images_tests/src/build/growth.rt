//! Refused growth.

use crate::build::built::SMALL;
use crate::build::runs::{Answer, emitted_of, file_of};
use crate::checks::{equal, expect};
use byteorder::LittleEndian;
use flashbase::Sink;
use jbuild::{Emitted, HostFiles, put_accepted};
use jlog::{RunReport, SessionFault};
use std::alloc::{AllocError, Global};
use test_support::{MADE, Matcher, Taker};

/// A listing on a base: where writing goes on, the number of blocks, and the line that tells of it.
#[derive(Clone, Copy)]
struct Row<'r> {
    base: &'r [u8],
    from: u32,
    blocks: u32,
    text: &'r [u8],
    told: &'r [u8],
}

/// The files that the listings name.
fn read_two(alloc: Global) -> Result<HostFiles, AllocError> {
    let mut parts = HostFiles::new(alloc);
    parts.insert("two".to_string(alloc)?, &file_of(alloc, 1, 8192)?)?;
    Ok(parts)
}

/// What `emit` answers of a row, and nothing where a growth is refused before.
fn emitted<S: Sink>(alloc: Global, row: &Row<'_>, sink: S) -> Option<Answer<S>> {
    let parts = read_two(alloc).ok()?;
    emitted_of::<LittleEndian, S>(alloc, &parts, row.base, row.blocks, row.text, sink)
}

/// What goes out for a row, or why not all of it does.
fn output_of(alloc: Global, row: &Row<'_>) -> Result<Vec<u8>, SessionFault> {
    match emitted(alloc, row, Taker::new(alloc)) {
        None => Err(SessionFault::OutOfMemory),
        Some(Ok(done)) => {
            let (sink, emitted) = done;
            match emitted.report.stopped {
                None => Ok(sink.bytes),
                Some(fault) => Err(fault),
            }
        }
        Some(Err((fault, _))) => Err(fault),
    }
}

/// Whether the line of what was accepted is as told.
fn is_told(row: &Row<'_>, report: &RunReport) -> bool {
    let mut line = Matcher {
        rest: row.told,
        failures: 0,
    };
    put_accepted(row.from, report.accepted, &report.places, &mut line).is_ok()
        && line.rest.is_empty()
}

/// Why not all was accepted, and how many bytes went out; none where the bytes and the line are
/// right. What is refused before `emit` counts as its want of memory.
fn fault(alloc: Global, row: &Row<'_>, whole: &[u8]) -> Option<(SessionFault, usize)> {
    let sink = Matcher {
        rest: whole,
        failures: 0,
    };
    let (fault, left) = match emitted(alloc, row, sink) {
        None => (SessionFault::OutOfMemory, whole.len()),
        Some(Ok((sink, Emitted { report, .. }))) => match report.stopped {
            None if sink.rest.is_empty() && is_told(row, &report) => return None,
            None => (SessionFault::Broken, 0),
            Some(fault) => (fault, sink.rest.len()),
        },
        Some(Err((fault, sink))) => (fault, sink.rest.len()),
    };
    Some((fault, whole.len().saturating_sub(left)))
}

fn rows() -> &'static [Row<'static>] {
    &[
        Row {
            base: &[],
            from: 0,
            blocks: 1,
            text: SMALL,
            told: b"accepted 4 nodes 6 bytes 412\n",
        },
        Row {
            base: &MADE,
            from: 8192,
            blocks: 3,
            text: b"create 0644 /b\npart /b 0 two\nmkdir 0755 /d\nrename /b /d/c\n",
            told: b"accepted 4 nodes 8 bytes 12568\n",
        },
    ]
}

/// Whether a growth that is refused is told as such, before the base's bytes or after them, and the
/// next call, with memory, answers as if there had been none before. Where the memory for what is
/// to go out is refused, also to the sink that keeps it, no more is asked.
fn holds(alloc: Global, row: &Row<'_>) -> bool {
    let whole = match output_of(alloc, row) {
        Ok(whole) => whole,
        Err(SessionFault::OutOfMemory | SessionFault::Sink) => return true,
        Err(_) => return false,
    };
    match fault(alloc, row, &whole) {
        None => true,
        Some((SessionFault::OutOfMemory, taken)) => {
            (taken == 0 || taken >= row.from as usize) && fault(alloc, row, &whole).is_none()
        }
        Some(_) => false,
    }
}

/// Passes with each allocation failing in turn too.
#[test]
fn refused_growth_is_want_of_memory(rt: HostRuntime) {
    for row in rows() {
        expect(&rt, holds(rt.alloc(), row));
    }
    // The name's node is cut, and writing goes on in the next block.
    let cut = Row {
        base: &MADE[..100],
        from: 8192,
        blocks: 2,
        text: b"create 0644 /b\n",
        told: b"accepted 1 nodes 2 bytes 124\n",
    };
    expect(&rt, holds(rt.alloc(), &cut));
}

/// A file's name and its bytes.
fn named(alloc: Global, name: &str) -> Option<(String, Vec<u8>)> {
    Some((name.to_string(alloc).ok()?, b"abc".to_vec(alloc).ok()?))
}

/// A file whose growth is refused is not there, and can be put there then.
#[test]
fn a_refused_file_is_not_there(rt: HostRuntime) {
    let mut parts = HostFiles::new(rt.alloc());
    for name in ["f", "g", "f"] {
        let is_there = parts.has(name);
        let Some((key, bytes)) = named(rt.alloc(), name) else {
            return;
        };
        if parts.insert(key, &bytes).is_err() {
            equal(&rt, parts.has(name), is_there);
            let Some((key, bytes)) = named(rt.alloc(), name) else {
                return;
            };
            expect(&rt, parts.insert(key, &bytes).is_ok());
        }
        expect(&rt, parts.has(name));
    }
}

/// The listing needs a second block, which is told where there is memory to tell it.
#[test]
fn blocks_that_are_not_told(rt: HostRuntime) {
    let row = Row {
        base: &MADE,
        from: 8192,
        blocks: 1,
        text: b"create 0644 /b\n",
        told: b"",
    };
    let Some(Ok(done)) = emitted(rt.alloc(), &row, Taker::new(rt.alloc())) else {
        return;
    };
    let (_sink, Emitted { report, blocks }) = done;
    match report.stopped {
        Some(SessionFault::Full { .. }) => {
            expect(&rt, matches!(blocks, Ok(Some(2)) | Err(AllocError)));
        }
        Some(fault) => {
            equal(&rt, fault, SessionFault::OutOfMemory);
            expect(&rt, blocks == Ok(None));
        }
        None => expect(&rt, false),
    }
}
