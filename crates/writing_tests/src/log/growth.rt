//! A growth that is refused is told as such, and what stands after it.

ghost use Rattle.jnode.specs.declared.order.Endian.TheVariants.{Little};
ghost use Rattle.jmount.specs.Mounts.{IsMountOf};

use crate::checks::expect;
use byteorder::LittleEndian;
use flashbase::pad4;
use jlog::{Flash, Place, Session, SessionFault, Start};
use jmount::{Mounted, mount};
use jscan::{Geometry, Page};
use jsteps::Op;
use std::alloc::Global;
use test_operations::{BY, ops_of};
use test_support::{Matcher, Taker};

const GEOMETRY: Geometry = Geometry { block: 8192 };

const FLASH: Flash = Flash {
    geometry: GEOMETRY,
    blocks: 2,
    page: Page::P4096,
};

/// Over two blocks, with a name that an index cannot keep without memory.
const LINES: [&str; 7] = [
    "create /a 644",
    "write /a 0 10",
    "truncate /a 4",
    "write /a 8 1",
    "mkdir /d 755",
    "rename /a /d/name-of-more-than-sixteen-bytes",
    "write /d/name-of-more-than-sixteen-bytes 0 8192",
];

type Log<'a, 'b> = Session<'a, LittleEndian, Matcher<'b>>;

/// What operations put onto an empty flash; none where a growth is refused.
fn output_of(alloc: Global, ops: &[Op<'_>]) -> Option<Vec<u8>> {
    let mounted = mount::<LittleEndian>(alloc, &[], GEOMETRY).ok()?;
    let sink = Taker::new(alloc);
    let mut session = Session::<LittleEndian, _>::resume(alloc, &mounted, GEOMETRY, 2, sink).ok()?;
    let report = session.run(alloc, ops);
    match report.stopped {
        None => Some(session.finish().bytes),
        Some(_) => None,
    }
}

/// Where the bytes of these nodes end, or `end` where there are none.
fn end_of(places: &[Place], end: u64) -> u64 {
    match places.last() {
        Some(place) => pad4(place.addr.wrapping_add(place.totlen)),
        None => end,
    }
}

/// Applies operations. One whose growth is refused is applied again: it does what it did not, in
/// the same bytes, or, where a byte of it went out, the session is broken. Whether that is so of
/// all.
fn are_applied(alloc: Global, mut log: Log<'_, '_>, ops: &[Op<'_>], len: usize) -> bool {
    let mut end = 0;
    for op in ops {
        let mut applied = log.apply(alloc, op);
        if matches!(applied, Err(SessionFault::OutOfMemory)) {
            applied = log.apply(alloc, op);
        }
        match applied {
            Ok(applied) => end = end_of(&applied.places, end),
            Err(fault) => {
                let left = log.finish().rest.len();
                return fault == SessionFault::Broken && end < len.saturating_sub(left) as u64;
            }
        }
    }
    log.finish().rest.is_empty()
}

/// Runs operations, and applies those that a refused growth left.
fn are_run(alloc: Global, mut log: Log<'_, '_>, ops: &[Op<'_>], len: usize) -> bool {
    let report = log.run(alloc, ops);
    match report.stopped {
        None | Some(SessionFault::OutOfMemory) => {
            are_applied(alloc, log, ops.get(report.accepted..).unwrap_or(ops), len)
        }
        Some(_) => false,
    }
}

/// A session on a mounted image, begun or resumed. One that is refused its memory hands its sink
/// back, and is asked for again.
fn log_on<'a, 'b>(
    alloc: Global,
    mounted: &Mounted<'a>,
    sink: Matcher<'b>,
    is_begun: bool,
) -> Result<Log<'a, 'b>, Matcher<'b>>
    requires { IsMountOf Little 8192 mounted.now }
{
    if is_begun {
        let Ok(start) = Start::<LittleEndian>::of(mounted, FLASH) else {
            return Err(sink);
        };
        return match Log::begin(alloc, &start, sink) {
            Ok(log) => Ok(log),
            Err((_, sink)) => Log::begin(alloc, &start, sink).map_err(|(_, sink)| sink),
        };
    }
    let Flash {
        geometry,
        blocks,
        page,
    } = FLASH;
    match Log::resume_or_return(alloc, mounted, geometry, blocks, page, sink) {
        Ok(log) => Ok(log),
        Err((_, sink)) => Log::resume_or_return(
            alloc, mounted, geometry, blocks, page, sink,
        ).map_err(|(_, sink)| sink),
    }
}

/// A session on an empty flash puts these bytes for these operations.
fn are_put(alloc: Global, ops: &[Op<'_>], whole: &[u8], in_one_run: bool) -> bool {
    let Ok(mounted) = mount::<LittleEndian>(alloc, &[], GEOMETRY) else {
        return true;
    };
    let sink = Matcher {
        rest: whole,
        failures: 0,
    };
    match log_on(alloc, &mounted, sink, in_one_run) {
        Ok(log) if in_one_run => are_run(alloc, log, ops, whole.len()),
        Ok(log) => are_applied(alloc, log, ops, whole.len()),
        Err(_) => false,
    }
}

/// Passes with each allocation failing in turn too. Where the memory for the operations or for what
/// they are to put is refused, nothing is run.
#[test]
fn refused_growth_of_sessions(rt: HostRuntime) {
    let Ok(ops) = ops_of(rt.alloc(), &LINES, BY) else {
        return;
    };
    if let Some(whole) = output_of(rt.alloc(), &ops) {
        expect(&rt, are_put(rt.alloc(), &ops, &whole, false));
        expect(&rt, are_put(rt.alloc(), &ops, &whole, true));
    }
}
