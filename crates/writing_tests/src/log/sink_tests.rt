//! Sessions whose sink fails, or takes little.

ghost use Rattle.jnode.specs.declared.order.Endian.TheVariants.{Little};
ghost use Rattle.jmount.specs.Mounts.{IsMountOf};

use crate::checks::{equal, expect_at};
use byteorder::LittleEndian;
use jlog::{RunReport, Session, SessionFault};
use jmount::{Mounted, mount};
use jscan::Geometry;
use jsteps::Op;
use std::alloc::Global;
use std::test::Fail;
use test_operations::{BY, CUT_LINES, ops_of};
use test_support::{CUT_PLACES, Taker};

const GEOMETRY: Geometry = Geometry { block: 8192 };

/// Where the bytes of each operation of `CUT_LINES` end.
const ENDS: [usize; 4] = [124, 204, 272, 412];

type Log<'a> = Session<'a, LittleEndian, Taker>;

/// Whether a session that is broken puts nothing more, of the first operation either.
fn is_broken(alloc: Global, session: &mut Log<'_>, ops: &[Op<'_>]) -> bool {
    match ops.first() {
        Some(op) => matches!(session.apply(alloc, op), Err(SessionFault::Broken)),
        None => false,
    }
}

/// What a run reports, and the sink of its session. A session that the run broke puts nothing more.
fn run_in(alloc: Global, mut session: Log<'_>, ops: &[Op<'_>]) -> Option<(RunReport, Taker)> {
    let report = session.run(alloc, ops);
    if report.stopped.is_some() && !is_broken(alloc, &mut session, ops) {
        return None;
    }
    Some((report, session.finish()))
}

/// The same of a session on a mounted image.
fn run_on(
    alloc: Global,
    mounted: &Mounted<'_>,
    sink: Taker,
    ops: &[Op<'_>],
) -> Option<(RunReport, Taker)>
    requires { IsMountOf Little 8192 mounted.now }
{
    let session = Log::resume(alloc, mounted, GEOMETRY, 1, sink).ok()?;
    run_in(alloc, session, ops)
}

/// The same onto an empty flash.
fn run_onto(alloc: Global, sink: Taker, ops: &[Op<'_>]) -> Option<(RunReport, Taker)> {
    let mounted = mount::<LittleEndian>(alloc, &[], GEOMETRY).ok()?;
    run_on(alloc, &mounted, sink, ops)
}

/// Whether so many operations are accepted, and the nodes that have a place are the first ones.
fn is_reported(report: &RunReport, accepted: usize, nodes: usize) -> bool {
    let places = report.places.iter().map(|place| (place.addr, place.totlen));
    report.accepted == accepted && places.eq(CUT_PLACES.iter().copied().take(nodes))
}

/// After how many bytes the sink fails, and how many operations are accepted and nodes placed then.
fn limits() -> &'static [(usize, usize, usize)] {
    &[
        (0, 0, 0),
        (79, 0, 0),
        (80, 0, 1),
        (100, 0, 1),
        (120, 0, 1),
        (121, 0, 2),
        (123, 0, 2),
        (124, 1, 2),
        (201, 1, 2),
        (202, 1, 3),
        (203, 1, 3),
    ]
}

/// Whether a sink that fails after so many bytes breaks a session as a row says.
fn breaks_as_told(alloc: Global, ops: &[Op<'_>], row: (usize, usize, usize)) -> bool {
    let (limit, accepted, nodes) = row;
    match run_onto(alloc, Taker::limited(alloc, 7, limit), ops) {
        Some((report, sink)) => {
            report.stopped == Some(SessionFault::Sink)
                && is_reported(&report, accepted, nodes)
                && (sink.bytes.len(), sink.failures) == (limit, 1)
        }
        None => false,
    }
}

#[test]
fn a_session_breaks_with_its_sink(rt: HostRuntime) -> Result<(), Fail> {
    let ops = ops_of(rt.alloc(), &CUT_LINES, BY)?;
    for &row in limits() {
        expect_at(&rt, breaks_as_told(rt.alloc(), &ops, row), row);
    }
    Ok(())
}

/// Whether a sink that failed once holds a beginning of the bytes, and the report tells of the
/// nodes and operations in it.
fn is_broken_off(report: &RunReport, sink: &Taker, whole: &[u8]) -> bool {
    let taken = sink.bytes.len();
    let nodes = CUT_PLACES.iter().filter(|(addr, totlen)| addr.wrapping_add(*totlen) as usize
        <= taken);
    report.stopped == Some(SessionFault::Sink)
        && is_reported(
            report,
            ENDS.iter().filter(|end| **end <= taken).count(),
            nodes.count(),
        )
        && sink.failures == 1
        && whole.starts_with(&sink.bytes)
}

/// What a sink that takes one byte a call holds after all operations.
fn whole_of(alloc: Global, ops: &[Op<'_>]) -> Option<Vec<u8>> {
    match run_onto(alloc, Taker::limited(alloc, 1, usize::MAX), ops) {
        Some((report, sink)) if report.stopped.is_none() && is_reported(&report, 4, 6) => {
            Some(sink.bytes)
        }
        _ => None,
    }
}

/// Whether a sink that takes one byte a call, and fails once after so many calls, breaks a session
/// off.
fn fails_once(alloc: Global, ops: &[Op<'_>], calls: usize, whole: &[u8]) -> bool {
    match run_onto(alloc, Taker::failing(alloc, 1, calls, calls % 2 == 0), ops) {
        Some((report, sink)) => is_broken_off(&report, &sink, whole),
        None => false,
    }
}

/// How many sinks break a session off, from the first one on that fails after none of its calls.
fn count_broken(alloc: Global, ops: &[Op<'_>], whole: &[u8]) -> usize {
    (0..whole.len())
        .take_while(|calls| fails_once(alloc, ops, *calls, whole))
        .count()
}

/// The sink takes one byte a call, and fails once, at each of its calls in turn: by an Err, or by
/// taking nothing.
#[test]
fn a_sink_that_fails_once(rt: HostRuntime) -> Result<(), Fail> {
    let ops = ops_of(rt.alloc(), &CUT_LINES, BY)?;
    let count = whole_of(rt.alloc(), &ops).map(|whole| count_broken(rt.alloc(), &ops, &whole));
    equal(&rt, count, Some(412));
    Ok(())
}

/// Whether nothing was accepted and no place is told, and this stopped it.
fn is_halted(report: &RunReport, stopped: Option<SessionFault>) -> bool {
    report.accepted == 0 && report.places.is_empty() && report.stopped == stopped
}

/// Whether a session whose sink fails at these operations runs nothing more, though the sink would
/// take it: neither operations nor none. Its sink holds so many bytes.
fn runs_nothing(alloc: Global, mut session: Log<'_>, ops: &[Op<'_>], taken: usize) -> bool {
    let first = session.run(alloc, ops);
    let none = session.run(alloc, &[]);
    let again = session.run(alloc, ops);
    let one = session.run(alloc, ops.get(..1).unwrap_or(ops));
    let sink = session.finish();
    first.stopped == Some(SessionFault::Sink)
        && is_halted(&none, None)
        && is_halted(&again, Some(SessionFault::Broken))
        && is_halted(&one, Some(SessionFault::Broken))
        && sink.bytes.len() == taken
        && sink.failures == 1
}

fn stays_broken_on(
    alloc: Global,
    mounted: &Mounted<'_>,
    sink: Taker,
    ops: &[Op<'_>],
    taken: usize,
) -> bool
    requires { IsMountOf Little 8192 mounted.now }
{
    match Log::resume(alloc, mounted, GEOMETRY, 1, sink) {
        Ok(session) => runs_nothing(alloc, session, ops, taken),
        Err(_) => false,
    }
}

fn stays_broken(alloc: Global, sink: Taker, ops: &[Op<'_>], taken: usize) -> bool {
    match mount::<LittleEndian>(alloc, &[], GEOMETRY) {
        Ok(mounted) => stays_broken_on(alloc, &mounted, sink, ops, taken),
        Err(_) => false,
    }
}

/// The call at which the sink fails, and how many bytes it took before.
fn calls_and_bytes() -> &'static [(usize, usize)] {
    &[(0, 0), (1, 7), (2, 12), (5, 33), (12, 80), (13, 87)]
}

#[test]
fn a_broken_session_runs_nothing(rt: HostRuntime) -> Result<(), Fail> {
    let ops = ops_of(rt.alloc(), &CUT_LINES, BY)?;
    for &(calls, taken) in calls_and_bytes() {
        let sink = Taker::failing(rt.alloc(), 7, calls, calls % 2 == 0);
        expect_at(&rt, stays_broken(rt.alloc(), sink, &ops, taken), calls);
    }
    Ok(())
}
