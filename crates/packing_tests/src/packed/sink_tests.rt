//! Sessions whose sink fails, takes little, or is replaced.

ghost use Rattle.jnode.specs.declared.order.Endian.TheVariants.{Little};
ghost use Rattle.jview.specs.Through.{IsMountThroughOf};

use crate::checks::{equal, expect_at};
use crate::packed::sessions::session_on;
use byteorder::LittleEndian;
use jlog::{Flash, RunReport, SessionFault};
use jmount::Mounted;
use jpacked::{NodeForms, PackingSession};
use jscan::{Geometry, Page};
use jsteps::Op;
use jthrough::mount_through;
use std::alloc::Global;
use std::test::Fail;
use test_operations::{BY, CUT_LINES, ops_of};
use test_support::{CUT_PLACES, Taker};

const FLASH: Flash = Flash {
    geometry: Geometry { block: 8192 },
    blocks: 1,
    page: Page::P4096,
};

/// Where the bytes of each operation of `CUT_LINES` end: none of its nodes gets shorter.
const ENDS: [usize; 4] = [124, 204, 272, 412];

/// Nodes that get shorter.
const PACKED_LINES: [&str; 3] = ["create /a 644", "write /a 0 300", "write /a 4000 200"];

type Log = PackingSession<LittleEndian, Taker>;

/// What a run reports, and the sink of its session. A session that the run broke puts nothing more.
fn run_in(alloc: Global, mut session: Log, ops: &[Op<'_>]) -> Option<(RunReport, Taker)> {
    let report = session.run(alloc, ops);
    if report.stopped.is_some() {
        match ops.first() {
            Some(op) if matches!(session.apply(alloc, op), Err(SessionFault::Broken)) => {}
            _ => return None,
        }
    }
    Some((report, session.finish()))
}

fn run_on(
    alloc: Global,
    mounted: &Mounted<'_>,
    forms: NodeForms,
    sink: Taker,
    ops: &[Op<'_>],
) -> Option<(RunReport, Taker)>
    requires { IsMountThroughOf Little 8192 mounted.now }
{
    let session = session_on::<LittleEndian>(alloc, mounted, FLASH, forms, sink).ok()?;
    run_in(alloc, session, ops)
}

/// The same onto an empty flash.
fn run_onto(
    alloc: Global,
    forms: NodeForms,
    sink: Taker,
    ops: &[Op<'_>],
) -> Option<(RunReport, Taker)> {
    let mut contents = Vec::new(alloc);
    let mounted = mount_through::<LittleEndian>(alloc, &[], FLASH.geometry, &mut contents).ok()?;
    run_on(alloc, &mounted, forms, sink, ops)
}

/// What goes out to a sink that never fails, which nodes that is, and where each operation ends.
#[derive(Drop)]
struct Whole {
    forms: NodeForms,
    bytes: Vec<u8>,
    places: Vec<(u32, u32)>,
    ends: Vec<usize>,
}

/// Whether a sink that failed once holds a beginning of the bytes, and the report tells of the
/// nodes and operations in it.
fn is_broken_off(report: &RunReport, sink: &Taker, whole: &Whole) -> bool {
    let taken = sink.bytes.len();
    let nodes = whole
        .places
        .iter()
        .filter(|(addr, totlen)| { addr.wrapping_add(*totlen) as usize <= taken })
        .count();
    let told = report.places.iter().map(|place| (place.addr, place.totlen));
    report.stopped == Some(SessionFault::Sink)
        && report.accepted == whole.ends.iter().filter(|end| **end <= taken).count()
        && told.eq(whole.places.iter().copied().take(nodes))
        && sink.failures == 1
        && whole.bytes.starts_with(&sink.bytes)
}

/// Whether a sink that takes one byte a call, and fails once after so many calls, breaks a session
/// off.
fn fails_once(alloc: Global, ops: &[Op<'_>], calls: usize, whole: &Whole) -> bool {
    let sink = Taker::failing(alloc, 1, calls, calls % 2 == 0);
    match run_onto(alloc, whole.forms, sink, ops) {
        Some((report, sink)) => is_broken_off(&report, &sink, whole),
        None => false,
    }
}

/// How many sinks break a session off, from the first one on that fails after none of its calls.
fn count_broken(alloc: Global, ops: &[Op<'_>], whole: &Whole) -> usize {
    (0..whole.bytes.len())
        .take_while(|calls| fails_once(alloc, ops, *calls, whole))
        .count()
}

/// What goes out for `CUT_LINES`, whose places are known.
fn whole_of_cut(alloc: Global, forms: NodeForms, ops: &[Op<'_>]) -> Result<Whole, Fail> {
    let answer = run_onto(alloc, forms, Taker::limited(alloc, 1, usize::MAX), ops);
    let (_, sink) = answer.ok_or("no run")?;
    let mut places = Vec::new(alloc);
    places.extend_from_slice(&CUT_PLACES)?;
    let mut ends = Vec::new(alloc);
    ends.extend_from_slice(&ENDS)?;
    Ok(Whole {
        forms,
        bytes: sink.bytes,
        places,
        ends,
    })
}

/// The sink takes one byte a call, and fails once, at each of its calls in turn: by an Err, or by
/// taking nothing.
#[test]
fn a_sink_that_fails_once(rt: HostRuntime) -> Result<(), Fail> {
    let ops = ops_of(rt.alloc(), &CUT_LINES, BY)?;
    for forms in [NodeForms::Packed, NodeForms::Own] {
        let whole = whole_of_cut(rt.alloc(), forms, &ops)?;
        equal(&rt, count_broken(rt.alloc(), &ops, &whole), 412);
    }
    Ok(())
}

/// What goes out for nodes that get shorter, as the session itself tells the places: the first
/// operation ends with the second node, and each later one with its last.
fn whole_of_packed(alloc: Global, ops: &[Op<'_>]) -> Result<Whole, Fail> {
    let forms = NodeForms::Packed;
    let answer = run_onto(alloc, forms, Taker::limited(alloc, 1, usize::MAX), ops);
    let (report, sink) = answer.ok_or("no run")?;
    let mut places = Vec::new(alloc);
    for place in &report.places {
        places.push((place.addr, place.totlen))?;
    }
    let mut ends = Vec::new(alloc);
    for node in [1, 2] {
        let (addr, totlen) = *places.get(node).ok_or("no node")?;
        ends.push(addr.wrapping_add(totlen).wrapping_add(3) as usize / 4 * 4)?;
    }
    ends.push(sink.bytes.len())?;
    Ok(Whole {
        forms,
        bytes: sink.bytes,
        places,
        ends,
    })
}

/// The same where nodes are packed: each call in turn.
#[test]
fn a_sink_that_fails_once_while_nodes_are_packed(rt: HostRuntime) -> Result<(), Fail> {
    let ops = ops_of(rt.alloc(), &PACKED_LINES, BY)?;
    let whole = whole_of_packed(rt.alloc(), &ops)?;
    let count = count_broken(rt.alloc(), &ops, &whole);
    equal(&rt, count, whole.bytes.len());
    equal(&rt, count < 600, true);
    Ok(())
}

/// The bytes of two sinks, of which the second took the place of the first after so many operations.
fn replaced(
    alloc: Global,
    mut session: Log,
    ops: &[Op<'_>],
    first: usize,
) -> Option<(Taker, Taker)> {
    let before = session.run(alloc, ops.get(..first)?);
    let held = session.held();
    let cursor = session.cursor();
    let sink = session.replace_sink(Taker::new(alloc));
    let is_same = session.held() == held && session.cursor() == cursor;
    let after = session.run(alloc, ops.get(first..)?);
    if before.stopped.is_none() && after.stopped.is_none() && is_same {
        Some((sink, session.finish()))
    } else {
        None
    }
}

fn replaced_on(
    alloc: Global,
    mounted: &Mounted<'_>,
    ops: &[Op<'_>],
    first: usize,
) -> Option<(Taker, Taker)>
    requires { IsMountThroughOf Little 8192 mounted.now }
{
    let sink = Taker::new(alloc);
    let session = session_on::<LittleEndian>(alloc, mounted, FLASH, NodeForms::Packed, sink).ok()?;
    replaced(alloc, session, ops, first)
}

fn replaced_after(alloc: Global, ops: &[Op<'_>], first: usize) -> Option<(Taker, Taker)> {
    let mut contents = Vec::new(alloc);
    let mounted = mount_through::<LittleEndian>(alloc, &[], FLASH.geometry, &mut contents).ok()?;
    replaced_on(alloc, &mounted, ops, first)
}

/// The first sink has the bytes of the first operations, the second one those of the others.
#[test]
fn a_sink_that_is_replaced(rt: HostRuntime) -> Result<(), Fail> {
    let ops = ops_of(rt.alloc(), &CUT_LINES, BY)?;
    let whole = whole_of_cut(rt.alloc(), NodeForms::Packed, &ops)?;
    for (first, end) in [(0, 0), (1, 124), (2, 204), (3, 272), (4, 412)] {
        let Some((sink, last)) = replaced_after(rt.alloc(), &ops, first) else {
            return Err(Fail::from("it is stopped"));
        };
        let one = whole.bytes.get(..end).ok_or("shorter")?;
        let other = whole.bytes.get(end..).ok_or("shorter")?;
        expect_at(&rt, sink.took(0, one) && last.took(0, other), first);
    }
    Ok(())
}
