//! Devices that fail once, at each of their calls in turn, and devices that give or take one byte a
//! call.

use crate::checks::{equal, expect};
use crate::report::images::{GEOMETRY, TREE, TWO_BLOCKS, image_of, raw_image};
use crate::report::reads::{Call, answer_and_text, ask, calls};
use crate::report::streams::FIRST_BLOCK;
use byteorder::LittleEndian;
use flashbase::LoadFault;
use jreport::{ProgramFault, stream_lines};
use std::alloc::Global;
use std::test::Fail;
use test_support::{Giver, MADE, Taker};

/// Whether a sink that failed once is told of, and nothing went out after the beginning that it
/// took.
fn is_told(answer: &Result<u64, ProgramFault<'static>>, sink: &Taker, text: &[u8]) -> bool {
    *answer == Err(ProgramFault::Output) && sink.failures == 1 && text.starts_with(&sink.bytes)
}

/// After how many calls the sink of a call on `image` fails no more, since there are no more. At
/// each one before, its failure is told of.
fn count_of_puts(
    alloc: Global,
    image: &[u8],
    call: Call,
    text: &[u8],
    is_silent: bool,
) -> Option<usize> {
    for calls in 0..100usize {
        let mut sink = Taker::failing(alloc, 40, calls, is_silent);
        let answer = ask(alloc, call, image, GEOMETRY, &mut sink);
        if answer.is_ok() {
            return if sink.took(0, text) {
                Some(calls)
            } else {
                None
            };
        }
        if !is_told(&answer, &sink, text) {
            return None;
        }
    }
    None
}

#[test]
fn sinks_that_fail_once(rt: HostRuntime) -> Result<(), Fail> {
    let image = image_of(rt.alloc(), TREE)?;
    for &call in calls() {
        let (_, text) = answer_and_text(rt.alloc(), call, &image, GEOMETRY);
        let count = count_of_puts(rt.alloc(), &image, call, &text, false);
        expect(&rt, count.is_some_and(|count| count > 0));
        let silent = count_of_puts(rt.alloc(), &image, call, &text, true);
        equal(&rt, silent, count);
    }
    Ok(())
}

#[test]
fn sinks_of_one_byte_a_call(rt: HostRuntime) -> Result<(), Fail> {
    let image = image_of(rt.alloc(), TREE)?;
    for &call in calls() {
        let (want, text) = answer_and_text(rt.alloc(), call, &image, GEOMETRY);
        let mut sink = Taker::limited(rt.alloc(), 1, usize::MAX);
        let answer = ask(rt.alloc(), call, &image, GEOMETRY, &mut sink);
        equal(&rt, answer, want);
        expect(&rt, sink.took(0, &text));
    }
    Ok(())
}

/// One block, which is given in two calls, and a third tells that there are no more.
#[test]
fn streams_that_fail_once(rt: HostRuntime) {
    for calls in 0..4usize {
        let mut sink = Taker::limited(rt.alloc(), 1, usize::MAX);
        let source = Giver::failing(&MADE, 100, calls);
        let (answer, left) = stream_lines::<LittleEndian, _, _>(
            rt.alloc(),
            source,
            GEOMETRY,
            &mut sink,
        );
        let failures = left.map(|left| left.failures);
        if calls < 3 {
            equal(&rt, answer, Err(ProgramFault::Load(LoadFault::Device)));
            expect(&rt, sink.took(0, b"") && failures == Some(1));
        } else {
            equal(&rt, answer, Ok(0));
            equal(&rt, failures, Some(0));
        }
    }
}

/// Where the sink fails, the source was read through the block whose lines it did not take, and no
/// further.
#[test]
fn a_source_is_read_as_far_as_its_lines_go(rt: HostRuntime) -> Result<(), Fail> {
    let image = raw_image(rt.alloc(), TWO_BLOCKS)?;
    let lines = FIRST_BLOCK.len();
    for (limit, read) in [(0, 4096), (lines - 1, 4096), (lines, 8192)] {
        let mut sink = Taker::limited(rt.alloc(), 1, limit);
        let source = Giver::limited(&image, 1000, usize::MAX);
        let (answer, left) = stream_lines::<LittleEndian, _, _>(
            rt.alloc(),
            source,
            GEOMETRY,
            &mut sink,
        );
        equal(&rt, answer, Err(ProgramFault::Output));
        equal(&rt, left.map(|left| left.rest), image.get(read..));
    }
    Ok(())
}
