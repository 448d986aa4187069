//! A growth that is refused is told as such.

use crate::checks::equal;
use crate::report::images::{
    CIRCLE, CIRCLE_LINES, DEEP, DEEP_LISTED, GEOMETRY, LARGE, TREE, image_of,
};
use crate::report::reads::{Call, PART_LISTED, TREE_CHECKED, TREE_LISTED, ask};
use byteorder::LittleEndian;
use flashbase::LoadFault;
use jmount::{MountFault, mount};
use jreport::{ProgramFault, path_word, scan_lines, stream_lines, tree_lines, verdict_lines};
use jscan::ScanFault;
use std::alloc::Global;
use test_support::{Giver, MADE, Matcher, Node};

/// What each call answers of `TREE`, and what it puts.
fn whole() -> &'static [(&'static Call, u64, &'static [u8])] {
    &[
        (&Call::Check, 1, TREE_CHECKED),
        (&Call::Content(b"/d/f"), 0, b"hi"),
        (&Call::Listing, 0, TREE_LISTED),
        (&Call::Part(b"/d"), 0, PART_LISTED),
    ]
}

/// Why a call is not answered; none where its answer and its text are right.
fn fault(
    alloc: Global,
    image: &[u8],
    (call, found, text): (&Call, u64, &[u8]),
) -> Option<ProgramFault<'static>> {
    let mut sink = Matcher {
        rest: text,
        failures: 0,
    };
    match ask(alloc, *call, image, GEOMETRY, &mut sink) {
        Ok(answer) if answer == found && sink.rest.is_empty() => None,
        Ok(_) => Some(ProgramFault::Output),
        Err(fault) => Some(fault),
    }
}

/// Passes with each allocation failing in turn too: memory is then blamed, by the number of the
/// step that wanted it, and the same call answers as if there had been none before.
#[test]
fn refused_growth_of_whole_calls(rt: HostRuntime) {
    let Ok(image) = image_of(rt.alloc(), TREE) else {
        return;
    };
    for &row in whole() {
        match fault(rt.alloc(), &image, row) {
            None => (),
            Some(ProgramFault::OutOfMemory | ProgramFault::Mount(MountFault::OutOfMemory)) => {
                equal(&rt, fault(rt.alloc(), &image, row), None)
            }
            Some(other) => equal(&rt, Some(other), None),
        }
    }
}

/// Trees with and without their shape, and their lines.
fn listed() -> &'static [(&'static [Node<'static>], &'static [u8])] {
    &[(DEEP, DEEP_LISTED), (CIRCLE, CIRCLE_LINES)]
}

/// Why the lines of a tree are not put; none where they are.
fn tree_fault(alloc: Global, nodes: &[Node<'_>], text: &[u8]) -> Option<ProgramFault<'static>> {
    let Ok(image) = image_of(alloc, nodes) else {
        return Some(ProgramFault::OutOfMemory);
    };
    let Ok(mounted) = mount::<LittleEndian>(alloc, &image, LARGE) else {
        return Some(ProgramFault::OutOfMemory);
    };
    let mut sink = Matcher {
        rest: text,
        failures: 0,
    };
    match tree_lines(alloc, &mounted, &mut sink) {
        Ok(()) if sink.rest.is_empty() => None,
        Ok(()) => Some(ProgramFault::Output),
        Err(fault) => Some(fault),
    }
}

/// Trees with the verdict on them and on their shape.
fn verdicts() -> &'static [(&'static [Node<'static>], &'static [u8])] {
    &[
        (TREE, b"mount ok\ndangling pino 1 ino 9 name x\nshape ok\n"),
        (CIRCLE, b"mount ok\nshape broken\n"),
    ]
}

/// Why the verdict on an image is not put; none where it is. Where memory ran out, nothing of it
/// was.
fn verdict_fault(alloc: Global, image: &[u8], text: &[u8]) -> Option<ProgramFault<'static>> {
    let mut sink = Matcher {
        rest: text,
        failures: 0,
    };
    match verdict_lines::<LittleEndian, _>(alloc, image, LARGE, true, &mut sink) {
        Ok(true) if sink.rest.is_empty() => None,
        Err(fault) if sink.rest.len() == text.len() => Some(fault),
        _ => Some(ProgramFault::Output),
    }
}

/// Passes with each allocation failing in turn too: memory is then blamed, of the mount or of what
/// is asked of it, and the same call answers as if there had been none before.
#[test]
fn refused_growth_of_verdicts(rt: HostRuntime) {
    for &(nodes, text) in verdicts() {
        let Ok(image) = image_of(rt.alloc(), nodes) else {
            return;
        };
        match verdict_fault(rt.alloc(), &image, text) {
            None => (),
            Some(ProgramFault::OutOfMemory | ProgramFault::Mount(MountFault::OutOfMemory)) => {
                equal(&rt, verdict_fault(rt.alloc(), &image, text), None)
            }
            Some(other) => equal(&rt, Some(other), None),
        }
    }
}

const REPORT: &[u8] = b"block 0\n\
00000000 marker 12\n\
0000000c inode 68 ino 2 version 1 mode 100644 size 0 offset 0 data 0 none\n\
00000050 entry 44 pino 1 version 1 ino 2 type 8 name a\n\
0000007c erased 3972\n\
total blocks 1 entries 1 inodes 1 findings 0\n";

/// Why the lines of a source are not put; none where they are.
fn stream_fault(alloc: Global) -> Option<ProgramFault<'static>> {
    let mut sink = Matcher {
        rest: REPORT,
        failures: 0,
    };
    let source = Giver::failing(&MADE, 100, usize::MAX);
    match stream_lines::<LittleEndian, _, _>(alloc, source, GEOMETRY, &mut sink) {
        (Ok(0), Some(_)) if sink.rest.is_empty() => None,
        (Ok(_), _) => Some(ProgramFault::Output),
        (Err(fault), _) => Some(fault),
    }
}

/// Why the lines of an image are no text; none where they are.
fn text_fault(alloc: Global) -> Option<ScanFault> {
    match scan_lines::<LittleEndian>(alloc, &MADE, GEOMETRY) {
        Ok(lines) if lines.text.as_slice() == REPORT => None,
        Ok(_) => Some(ScanFault::TooLarge),
        Err(fault) => Some(fault),
    }
}

/// Why a word is not read; none where it is.
fn word_fault(alloc: Global) -> Option<ProgramFault<'static>> {
    match path_word(alloc, b"/d\\x2ff") {
        Ok(path) if path.as_slice() == b"/d/f".as_slice() => None,
        Ok(_) => Some(ProgramFault::Output),
        Err(fault) => Some(fault),
    }
}

/// Passes with each allocation failing in turn too.
#[test]
fn refused_growth_of_lines(rt: HostRuntime) {
    for &(nodes, text) in listed() {
        if let Some(fault) = tree_fault(rt.alloc(), nodes, text) {
            equal(&rt, fault, ProgramFault::OutOfMemory);
            equal(&rt, tree_fault(rt.alloc(), nodes, text), None);
        }
    }
    if let Some(fault) = stream_fault(rt.alloc()) {
        equal(&rt, fault, ProgramFault::Load(LoadFault::OutOfMemory));
        equal(&rt, stream_fault(rt.alloc()), None);
    }
    if let Some(fault) = text_fault(rt.alloc()) {
        equal(&rt, fault, ScanFault::OutOfMemory);
        equal(&rt, text_fault(rt.alloc()), None);
    }
    if let Some(fault) = word_fault(rt.alloc()) {
        equal(&rt, fault, ProgramFault::OutOfMemory);
        equal(&rt, word_fault(rt.alloc()), None);
    }
}
