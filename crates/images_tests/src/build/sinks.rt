//! Sinks that fail, and sinks that take little.

use crate::build::runs::{Answer, emitted, made};
use crate::checks::{equal, equal_at, expect};
use byteorder::LittleEndian;
use jbuild::{Emitted, put_accepted};
use jlog::{Place, SessionFault};
use std::alloc::Global;
use std::process::Abort;
use std::test::Fail;
use test_support::{MADE, Taker};

const TEXT: &[u8] = b"create 0644 /b\nwrite /b 0 0102\n";

/// What goes out for a file on a base of 124 bytes, which is gone on from at 8192.
fn put(alloc: Global, sink: Taker) -> Option<Answer<Taker>> {
    emitted::<LittleEndian, _>(alloc, &MADE, 2, TEXT, sink)
}

#[test]
fn a_sink_that_takes_one_byte_a_call(rt: HostRuntime) -> Result<(), Fail> {
    let whole = made::<LittleEndian>(rt.alloc(), &MADE, 2, TEXT)?;
    equal(&rt, whole.output.len(), 8388);
    let sink = Taker::limited(rt.alloc(), 1, usize::MAX);
    let Some(Ok(done)) = put(rt.alloc(), sink) else {
        return Err(Fail::from("not emitted"));
    };
    let (sink, Emitted { report, .. }) = done;
    expect(&rt, sink.bytes.as_slice() == whole.output.as_slice());
    expect(
        &rt,
        report.places.as_slice() == whole.report.places.as_slice(),
    );
    equal(&rt, (report.accepted, sink.failures), (2, 0));
    Ok(())
}

/// After how many bytes the sink fails, all of them of the base.
fn base_limits() -> &'static [usize] {
    &[0, 1, 123, 124, 125, 380, 8191]
}

/// Stops the test unless a sink that fails at the base comes back with what it took.
fn fails_at_the_base(
    rt: &impl Abort,
    alloc: Global,
    whole: &[u8],
    limit: usize,
) -> Result<(), Fail> {
    let Some(Err(refused)) = put(alloc, Taker::limited(alloc, 4096, limit)) else {
        return Err(Fail::from("it is emitted"));
    };
    let (fault, sink) = refused;
    equal(rt, fault, SessionFault::Sink);
    equal(rt, (sink.bytes.len(), sink.failures), (limit, 1));
    expect(rt, whole.starts_with(&sink.bytes));
    Ok(())
}

#[test]
fn a_sink_that_fails_at_the_base(rt: HostRuntime) -> Result<(), Fail> {
    let whole = made::<LittleEndian>(rt.alloc(), &MADE, 2, TEXT)?;
    for &limit in base_limits() {
        fails_at_the_base(&rt, rt.alloc(), &whole.output, limit)?;
    }
    Ok(())
}

/// After how many bytes the sink fails, and how many lines are accepted and nodes placed then.
fn later_limits() -> &'static [(usize, usize, usize)] {
    &[
        (8192, 0, 0),
        (8271, 0, 0),
        (8272, 0, 1),
        (8315, 0, 2),
        (8316, 1, 2),
        (8386, 1, 3),
        (8387, 1, 3),
    ]
}

/// Stops the test unless a sink that fails later has what it took, and the report says so.
fn fails_later(
    rt: &impl Abort,
    alloc: Global,
    whole: &[u8],
    limit: usize,
    counted: (usize, usize),
) -> Result<(), Fail> {
    let Some(Ok(done)) = put(alloc, Taker::limited(alloc, 7, limit)) else {
        return Err(Fail::from("not emitted"));
    };
    let (sink, Emitted { report, blocks }) = done;
    equal(rt, report.stopped, Some(SessionFault::Sink));
    expect(rt, blocks == Ok(None));
    equal(rt, (report.accepted, report.places.len()), counted);
    equal(rt, (sink.bytes.len(), sink.failures), (limit, 1));
    expect(rt, whole.starts_with(&sink.bytes));
    Ok(())
}

#[test]
fn a_sink_that_fails_later(rt: HostRuntime) -> Result<(), Fail> {
    let whole = made::<LittleEndian>(rt.alloc(), &MADE, 2, TEXT)?;
    for &(limit, accepted, places) in later_limits() {
        fails_later(&rt, rt.alloc(), &whole.output, limit, (accepted, places))?;
    }
    Ok(())
}

/// What a run onto a sink reports as its end, and its sink.
fn ended(alloc: Global, sink: Taker) -> Result<(Option<SessionFault>, Taker), Fail> {
    match put(alloc, sink) {
        Some(Ok(done)) => {
            let (sink, Emitted { report, .. }) = done;
            Ok((report.stopped, sink))
        }
        Some(Err(refused)) => {
            let (fault, sink) = refused;
            Ok((Some(fault), sink))
        }
        None => Err(Fail::from("not emitted")),
    }
}

/// Whether a sink that fails once, at this call, does not fail, since there are fewer calls. It has
/// a beginning of what goes out.
fn ends(rt: &impl Abort, alloc: Global, whole: &[u8], calls: usize) -> Result<bool, Fail> {
    let sink = Taker {
        calls,
        is_silent: calls % 2 == 0,
        ..Taker::limited(alloc, 500, usize::MAX)
    };
    let (stopped, sink) = ended(alloc, sink)?;
    expect(rt, whole.starts_with(&sink.bytes));
    if stopped.is_none() {
        expect(rt, sink.took(0, whole));
        return Ok(true);
    }
    let found = (stopped, sink.failures);
    equal_at(rt, found, (Some(SessionFault::Sink), 1), calls);
    Ok(false)
}

/// After how many calls the sink fails no more, since there are no more.
fn count_of_calls(rt: &impl Abort, alloc: Global, whole: &[u8]) -> Result<usize, Fail> {
    for calls in 0..100usize {
        if ends(rt, alloc, whole, calls)? {
            return Ok(calls);
        }
    }
    Err(Fail::from("it goes on failing"))
}

/// The sink fails once, at each of its calls in turn: by an Err, or by taking nothing.
#[test]
fn a_sink_that_fails_once(rt: HostRuntime) -> Result<(), Fail> {
    let whole = made::<LittleEndian>(rt.alloc(), &MADE, 2, TEXT)?;
    let count = count_of_calls(&rt, rt.alloc(), &whole.output)?;
    expect(&rt, count > 20);
    Ok(())
}

const LINE: &[u8] = b"accepted 3 nodes 2 bytes 112\n";

#[test]
fn a_line_that_does_not_fit(rt: HostRuntime) -> Result<(), Fail> {
    let places = [(8204, 68), (8272, 29)].map(|(addr, totlen)| Place { addr, totlen });
    for limit in 0..LINE.len() + 1 {
        let mut sink = Taker::limited(rt.alloc(), 7, limit);
        let answer = put_accepted(8192, 3, &places, &mut sink);
        equal(&rt, answer.is_ok(), limit == LINE.len());
        equal(&rt, Some(sink.bytes.as_slice()), LINE.get(..limit));
    }
    Ok(())
}
