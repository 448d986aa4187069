//! A growth that is refused to a session is told as such, and what stands after it.

ghost use Rattle.std.specs.Prelude.{◌≡◌, true};
ghost use Rattle.jnode.specs.declared.order.Endian.TheVariants.{Little};
ghost use Rattle.jrests.specs.Openings.{AreOpeningsOf};
ghost use Rattle.jpacked.specs.View.{base_of_mount};
ghost use Rattle.jview.specs.Through.{IsMountThroughOf};

use crate::checks::expect;
use crate::grounds::{AROUND, FLASH, fronts_of};
use crate::sessions::{Rows, Way, openings_in, session_in};
use byteorder::LittleEndian;
use jlog::SessionFault;
use jmount::Mounted;
use jpacked::NodeForms;
use jrests::Opening;
use jsteps::Op;
use jthrough::mount_through;
use jupdate::OpeningSession;
use std::alloc::Global;
use test_operations::{BY, ops_of};
use test_support::{Matcher, Taker};

/// Packed nodes, plain ones, and a name that an index cannot keep without memory.
const LINES: [&str; 4] = [
    "text /a 200 abcdefgh",
    "put /name-of-more-than-sixteen-bytes 644 300",
    "write /a 0 5000",
    "remove-if /b",
];

const WAY: Way = Way {
    flash: FLASH,
    forms: NodeForms::Packed,
    rows: Rows::All,
};

type Log<'b> = OpeningSession<LittleEndian, Matcher<'b>>;

/// The image of a ground; none where a growth is refused.
fn image_of(alloc: Global) -> Option<Vec<u8>> {
    let fronts = fronts_of::<LittleEndian>(alloc, NodeForms::Packed)?;
    AROUND.image(alloc, &fronts, 8192).ok()
}

/// What operations put in a session; none where a growth is refused.
fn output_in(
    alloc: Global,
    mounted: &Mounted<'_>,
    row: Vec<Opening>,
    ops: &[Op<'_>],
) -> Option<Vec<u8>>
    requires through { IsMountThroughOf Little 8192 mounted.now }
    requires row { AreOpeningsOf Little 8192 5 (base_of_mount mounted.now) row.items }
{
    let sink = Taker::new(alloc);
    let mut session = session_in::<LittleEndian>(alloc, mounted, WAY, row, sink).ok()?;
    let report = session.run(alloc, ops);
    match report.stopped {
        None => Some(session.finish().bytes),
        Some(_) => None,
    }
}

/// What they put into the openings of an image.
fn output_of(alloc: Global, image: &[u8], ops: &[Op<'_>]) -> Option<Vec<u8>> {
    let mut contents = Vec::new(alloc);
    let geometry = FLASH.geometry;
    let mounted = mount_through::<LittleEndian>(alloc, image, geometry, &mut contents).ok()?;
    let row = openings_in::<LittleEndian>(alloc, mounted.image(), FLASH, Rows::All).ok()?;
    output_in(alloc, &mounted, row, ops)
}

/// How many bytes a session's sink still waits for.
fn missing(log: &mut Log<'_>) -> usize {
    let none = Matcher {
        rest: b"",
        failures: 0,
    };
    let sink = log.replace_sink(none);
    let count = sink.rest.len();
    let _ = log.replace_sink(sink);
    count
}

/// Applies an operation. If its growth is refused it is applied again: it does what it did not, in
/// the same bytes; or a byte of it went out, and the session is broken. Whether that is so, and
/// whether the session goes on.
fn is_applied(alloc: Global, log: &mut Log<'_>, op: &Op<'_>) -> (bool, bool) {
    let before = missing(log);
    match log.apply(alloc, op) {
        Ok(_) => (true, true),
        Err(SessionFault::OutOfMemory) => {
            let after = missing(log);
            match log.apply(alloc, op) {
                Ok(_) => (after == before, true),
                Err(fault) => (fault == SessionFault::Broken && after < before, false),
            }
        }
        Err(_) => (false, false),
    }
}

/// Whether operations are applied one by one, up to one that breaks the session.
fn are_applied(alloc: Global, log: &mut Log<'_>, ops: &[Op<'_>]) -> bool {
    for op in ops {
        let (is_well, goes_on) = is_applied(alloc, log, op);
        if !is_well || !goes_on {
            return is_well;
        }
    }
    missing(log) == 0
}

/// Whether operations are run, and those applied that a refused growth left, if it did not break
/// the session.
fn are_run(alloc: Global, log: &mut Log<'_>, ops: &[Op<'_>]) -> bool {
    let report = log.run(alloc, ops);
    match report.stopped {
        None => missing(log) == 0,
        Some(SessionFault::OutOfMemory) => {
            let left = missing(log);
            let rest = ops.get(report.accepted..).unwrap_or(ops);
            let more = log.run(alloc, rest);
            match more.stopped {
                None => missing(log) == 0,
                Some(fault) => {
                    fault == SessionFault::Broken && more.accepted == 0 && missing(log) == left
                }
            }
        }
        Some(_) => false,
    }
}

/// A session in the openings of a mounted image. One that is refused its memory hands its sink
/// back; none if the row that it is to have is refused.
fn log_in<'b>(
    alloc: Global,
    mounted: &Mounted<'_>,
    row: Vec<Opening>,
    sink: Matcher<'b>,
) -> Result<Log<'b>, (SessionFault, Matcher<'b>)>
    requires through { IsMountThroughOf Little 8192 mounted.now }
    requires row { AreOpeningsOf Little 8192 5 (base_of_mount mounted.now) row.items }
{
    Log::resume(alloc, mounted, FLASH, row, NodeForms::Packed, sink)
}

/// Whether a session in the openings of an image puts these bytes for these operations. One that is
/// refused its memory hands back a sink that took nothing. If the image or its openings are refused
/// their memory, nothing is run.
fn are_put(alloc: Global, image: &[u8], ops: &[Op<'_>], whole: &[u8], in_one_run: bool) -> bool {
    let mut contents = Vec::new(alloc);
    let Ok(mounted) = mount_through::<LittleEndian>(alloc, image, FLASH.geometry, &mut contents)
    else {
        return true;
    };
    let Ok(row) = openings_in::<LittleEndian>(alloc, mounted.image(), FLASH, Rows::All) else {
        return true;
    };
    let sink = Matcher {
        rest: whole,
        failures: 0,
    };
    match log_in(alloc, &mounted, row, sink) {
        Ok(mut log) if in_one_run => are_run(alloc, &mut log, ops),
        Ok(mut log) => are_applied(alloc, &mut log, ops),
        Err((fault, sink)) => fault == SessionFault::OutOfMemory && sink.rest.len() == whole.len(),
    }
}

/// Passes with each allocation failing in turn too.
#[test]
fn refused_growth_of_applied_operations(rt: HostRuntime) {
    let (Some(image), Ok(ops)) = (image_of(rt.alloc()), ops_of(rt.alloc(), &LINES, BY)) else {
        return;
    };
    if let Some(whole) = output_of(rt.alloc(), &image, &ops) {
        expect(&rt, are_put(rt.alloc(), &image, &ops, &whole, false));
    }
}

/// The same of operations that are run.
#[test]
fn refused_growth_of_a_run(rt: HostRuntime) {
    let (Some(image), Ok(ops)) = (image_of(rt.alloc()), ops_of(rt.alloc(), &LINES, BY)) else {
        return;
    };
    if let Some(whole) = output_of(rt.alloc(), &image, &ops) {
        expect(&rt, are_put(rt.alloc(), &image, &ops, &whole, true));
    }
}
