//! Sinks that fail once, at each byte of a text, and then work again: what each call that writes
//! text answers, and what went out.

use crate::checks::{equal, expect, expect_at};
use crate::report::images::{BLOCK, GEOMETRY, TREE, image_of};
use byteorder::LittleEndian;
use flashbase::{FromReader, PutFault};
use jline::{put_escaped, put_in_line, put_text, put_word};
use jmount::{FindFault, MountFault, mount};
use jreport::{
    ProgramFault, content, fault_text, put_compressed, put_decompressed, put_fault_and_note,
    put_named_notes, put_note, put_subtree, stream_lines, tree_lines, verdict_lines,
};
use std::alloc::Global;
use std::process::Abort;
use std::test::Fail;
use test_support::{LITTLE_MARKER, Taker};

/// What is written: of an image, or of bytes alone.
#[derive(Clone, Copy, Debug)]
enum Text {
    Stream,
    Verdict,
    Tree,
    Part,
    Object,
    Content,
    Note,
    NamedNotes,
    Fault,
    FaultLine,
    FaultLines,
    Decompressed,
    Compressed,
    Plain,
    Escaped,
    InLine,
    Word,
}

fn texts() -> &'static [Text] {
    &[
        Text::Stream,
        Text::Verdict,
        Text::Tree,
        Text::Part,
        Text::Object,
        Text::Content,
        Text::Note,
        Text::NamedNotes,
        Text::Fault,
        Text::FaultLine,
        Text::FaultLines,
        Text::Decompressed,
        Text::Compressed,
        Text::Plain,
        Text::Escaped,
        Text::InLine,
        Text::Word,
    ]
}

const FAULT: ProgramFault<'static> = ProgramFault::Path(FindFault::NotFound);

const NOTED_FAULT: ProgramFault<'static> = ProgramFault::Mount(MountFault::Compressed {
    addr: 8,
    compr: 7,
});

const BYTES: &[u8] = b"a /\\\n\xff";

/// Puts what is written of a mounted image.
fn put_mounted(
    alloc: Global,
    text: Text,
    image: &[u8],
    sink: &mut Taker,
) -> Result<(), ProgramFault<'static>> {
    let mounted = mount::<LittleEndian>(alloc, image, GEOMETRY)?;
    match text {
        Text::Object => put_subtree(alloc, &mounted, b"/s", sink),
        Text::Content => content(&mounted, b"/d/f", sink),
        Text::Part => put_subtree(alloc, &mounted, b"/d", sink),
        _ => tree_lines(alloc, &mounted, sink),
    }
}

/// Whether the put that failed after so many bytes says so.
fn put_of(answer: Result<(), PutFault>, taken: usize) -> Result<(), ProgramFault<'static>> {
    match answer {
        Ok(()) => Ok(()),
        Err(fault) if fault.taken == taken => Err(ProgramFault::Output),
        Err(_) => Err(FAULT),
    }
}

fn put(
    alloc: Global,
    text: Text,
    image: &[u8],
    sink: &mut Taker,
) -> Result<(), ProgramFault<'static>> {
    match text {
        Text::Stream => {
            let source = FromReader::new(image);
            stream_lines::<LittleEndian, _, _>(alloc, source, GEOMETRY, sink).0?;
        }
        Text::Verdict => {
            verdict_lines::<LittleEndian, _>(alloc, image, GEOMETRY, true, sink)?;
        }
        Text::Tree | Text::Part | Text::Object | Text::Content => {
            put_mounted(alloc, text, image, sink)?;
        }
        Text::Note => put_note(17, sink)?,
        Text::NamedNotes => put_named_notes(BYTES, 1, b"b", 17, sink)?,
        Text::Fault => {
            let answer = fault_text(&FAULT, sink);
            put_of(answer, sink.bytes.len())?;
        }
        Text::FaultLine => put_fault_and_note(&FAULT, sink)?,
        Text::FaultLines => put_fault_and_note(&NOTED_FAULT, sink)?,
        Text::Decompressed => put_decompressed(7, 29, 30168, sink)?,
        Text::Compressed => put_compressed(5, 31, 20416, sink)?,
        Text::Plain => put_text(sink, BYTES)?,
        Text::Escaped => put_escaped(sink, BYTES)?,
        Text::InLine => put_in_line(sink, BYTES)?,
        Text::Word => put_word(sink, BYTES)?,
    }
    Ok(())
}

/// Whether a sink that takes one byte a call, and fails once after so many, is told of, and takes
/// nothing more. The same call then puts all.
fn is_told(
    alloc: Global,
    text: Text,
    image: &[u8],
    whole: &[u8],
    calls: usize,
    is_silent: bool,
) -> bool {
    let mut sink = Taker::failing(alloc, 1, calls, is_silent);
    let answer = put(alloc, text, image, &mut sink);
    if answer != Err(ProgramFault::Output) || sink.failures != 1 || sink.bytes.len() != calls {
        return false;
    }
    let is_beginning = whole.starts_with(&sink.bytes);
    sink.bytes.clear();
    is_beginning && put(alloc, text, image, &mut sink).is_ok() && sink.took(1, whole)
}

/// Stops the test unless a text is there, and a sink that fails at each of its bytes is told of.
fn is_told_at_each_byte(rt: &impl Abort, alloc: Global, text: Text, image: &[u8]) {
    let mut sink = Taker::new(alloc);
    equal(rt, put(alloc, text, image, &mut sink), Ok(()));
    let whole = sink.bytes;
    expect(rt, !whole.is_empty());
    for calls in 0..whole.len() {
        let loud = is_told(alloc, text, image, &whole, calls, false);
        let silent = is_told(alloc, text, image, &whole, calls, true);
        expect_at(rt, loud && silent, (text, calls));
    }
}

/// The image has two blocks.
#[test]
fn texts_onto_sinks_that_fail_once(rt: HostRuntime) -> Result<(), Fail> {
    let mut image = image_of(rt.alloc(), TREE)?;
    image.resize(BLOCK, 0xFF)?;
    image.extend_from_slice(&LITTLE_MARKER)?;
    for &text in texts() {
        is_told_at_each_byte(&rt, rt.alloc(), text, &image);
    }
    Ok(())
}
