//! From the text of a listing to what goes out and is told. What may fail while operations or a
//! mounted image live is a call of its own: each `?` proves anew that all that lives is dropped.

use flashbase::{FromWriter, Sink};
use jbuild::{Emitted, HostFiles, emit, operations, put_accepted};
use jlisting::listing;
use jlog::{Place, RunReport, SessionFault, resume_at};
use jmount::mount;
use jnode::Order;
use jscan::{Geometry, Page};
use jsteps::Op;
use std::alloc::{AllocError, Global};
use std::test::Fail;

pub const GEOMETRY: Geometry = Geometry { block: 8192 };

/// Files of the host: their names, their one byte, and how often they have it.
fn files() -> &'static [(&'static str, u8, usize)] {
    &[
        ("page", 2, 4096),
        ("two", 1, 8192),
        ("three", 3, 12288),
        ("four", 4, 16384),
    ]
}

/// What went out for a listing on a base, what the run did, and the line that tells of it.
#[derive(Drop)]
pub struct Outcome {
    pub output: Vec<u8>,
    pub report: RunReport,
    pub blocks: Result<Option<u32>, AllocError>,
    pub line: Vec<u8>,
}

/// A file of one byte that it has so often.
pub fn file_of(alloc: Global, byte: u8, len: usize) -> Result<Vec<u8>, AllocError> {
    let mut bytes = Vec::new(alloc);
    bytes.resize(len, byte)?;
    Ok(bytes)
}

fn add_files(alloc: Global, parts: &mut HostFiles) -> Result<(), AllocError> {
    for &(name, byte, len) in files() {
        parts.insert(name.to_string(alloc)?, &file_of(alloc, byte, len)?)?;
    }
    Ok(())
}

/// The files, read.
pub fn read_files(alloc: Global) -> Result<HostFiles, AllocError> {
    let mut parts = HostFiles::new(alloc);
    match add_files(alloc, &mut parts) {
        Ok(()) => Ok(parts),
        Err(error) => Err(error),
    }
}

/// What `emit` answers.
pub type Answer<S> = Result<(S, Emitted), (SessionFault, S)>;

/// What `emit` answers for operations on a base, on a flash of so many blocks; nothing where the
/// base does not mount.
fn emitted_on<E: Order, S: Sink>(
    alloc: Global,
    base: &[u8],
    blocks: u32,
    ops: &[Op<'_>],
    sink: S,
) -> Option<Answer<S>> {
    let mounted = mount::<E>(alloc, base, GEOMETRY).ok()?;
    Some(emit::<E, _>(alloc, &mounted, GEOMETRY, blocks, Page::P4096, ops, sink))
}

/// The same for a listing that names these files; nothing where it has none, too.
pub fn emitted_of<E: Order, S: Sink>(
    alloc: Global,
    parts: &HostFiles,
    base: &[u8],
    blocks: u32,
    text: &[u8],
    sink: S,
) -> Option<Answer<S>> {
    let lines = listing(alloc, text).ok()?;
    let ops = operations::<E>(alloc, lines, parts).ok()?;
    emitted_on::<E, S>(alloc, base, blocks, &ops, sink)
}

/// The same for a listing that names the files of these tests.
pub fn emitted<E: Order, S: Sink>(
    alloc: Global,
    base: &[u8],
    blocks: u32,
    text: &[u8],
    sink: S,
) -> Option<Answer<S>> {
    let parts = read_files(alloc).ok()?;
    emitted_of::<E, S>(alloc, &parts, base, blocks, text, sink)
}

/// Where writing goes on from a base.
fn from_of<E: Order>(alloc: Global, base: &[u8], blocks: u32) -> Option<u32> {
    let mounted = mount::<E>(alloc, base, GEOMETRY).ok()?;
    resume_at::<E>(&mounted, GEOMETRY, blocks).ok()
}

/// The line that tells of a run from an address on.
fn line_of(alloc: Global, from: u32, report: &RunReport) -> Option<Vec<u8>> {
    let mut line = FromWriter::new(Vec::new(alloc));
    match put_accepted(from, report.accepted, &report.places, &mut line) {
        Ok(()) => Some(line.into_writer()),
        Err(_) => None,
    }
}

/// Runs a listing on a base, on a flash of so many blocks.
pub fn made<E: Order>(
    alloc: Global,
    base: &[u8],
    blocks: u32,
    text: &[u8],
) -> Result<Outcome, Fail> {
    let from = from_of::<E>(alloc, base, blocks).ok_or("not gone on from")?;
    let sink = FromWriter::new(Vec::new(alloc));
    let Some(Ok(done)) = emitted::<E, _>(alloc, base, blocks, text, sink) else {
        return Err(Fail::from("not emitted"));
    };
    let (sink, Emitted { report, blocks }) = done;
    let line = line_of(alloc, from, &report);
    Ok(Outcome {
        output: sink.into_writer(),
        report,
        blocks,
        line: line.ok_or("no line")?,
    })
}

/// A listing on a base: where its nodes go, how many bytes go out in all, and what is told.
#[derive(Clone, Copy)]
pub struct Row<'r> {
    pub base: &'r [u8],
    pub blocks: u32,
    pub text: &'static [u8],
    pub places: &'static [Place],
    pub len: usize,
    pub told: &'static str,
}

/// Whether the line of what was accepted, or the fault that stopped the run, is as told.
fn is_told(alloc: Global, outcome: &Outcome, told: &str) -> Result<bool, Fail> {
    match outcome.report.stopped {
        None => Ok(outcome.line.as_slice() == told.as_bytes()),
        Some(fault) => Ok(format!(in alloc; "{fault}")?.as_str() == told),
    }
}

/// Whether a row holds in an order.
pub fn holds<E: Order>(alloc: Global, row: &Row<'_>) -> Result<bool, Fail> {
    let outcome = made::<E>(alloc, row.base, row.blocks, row.text)?;
    let is_placed = outcome.report.places.as_slice() == row.places;
    Ok(is_placed && outcome.output.len() == row.len && is_told(alloc, &outcome, row.told)?)
}
