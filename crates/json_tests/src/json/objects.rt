//! The JSON of lines and texts.

use flashbase::{Sink, put_all};
use jjson::{JsonSink, Lines, put_line};
use std::alloc::Global;
use test_support::Taker;

/// Whether the JSON of a line is this object with a line feed, or nothing.
pub(crate) fn gives(alloc: Global, lines: Lines, line: &[u8], object: &[u8]) -> bool {
    let Ok(mut room) = Vec::with_capacity(alloc, line.len()) else {
        return false;
    };
    let mut taker = Taker::new(alloc);
    if put_line(lines, line, &mut room, &mut taker).is_err() {
        return false;
    }
    match taker.bytes.as_slice().split_last() {
        Some((feed, json)) => *feed == b'\n' && json == object && !object.is_empty(),
        None => object.is_empty(),
    }
}

/// Puts a text in pieces of this many bytes. Whether the sink took it.
pub(crate) fn put_pieces<T: Sink>(sink: &mut T, text: &[u8], piece: usize) -> bool {
    text.chunks(piece.max(1))
        .all(|part| put_all(sink, part).is_ok())
}

/// What goes below of a text that comes in pieces, to a sink that takes so many bytes at once.
pub(crate) fn json_of(
    alloc: Global,
    lines: Option<Lines>,
    text: &[u8],
    piece: usize,
    most: usize,
) -> Option<Vec<u8>> {
    let mut sink = JsonSink::new(alloc, Taker::limited(alloc, most, usize::MAX), lines);
    if !put_pieces(&mut sink, text, piece) {
        return None;
    }
    Some(sink.into_below().bytes)
}
