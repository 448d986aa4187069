//! A growth that is refused is told as such, and what stands after it.

ghost use Rattle.jnode.specs.declared.order.Endian.TheVariants.{Little};
ghost use Rattle.jview.specs.Through.{IsMountThroughOf};

use crate::checks::expect;
use byteorder::LittleEndian;
use flashbase::pad4;
use jlog::{Flash, Place, SessionFault};
use jmount::Mounted;
use jpacked::{NodeForms, PackingSession};
use jscan::{Geometry, Page};
use jsteps::Op;
use jthrough::mount_through;
use std::alloc::Global;
use test_operations::{BY, ops_of};
use test_support::{Matcher, Taker};

const FLASH: Flash = Flash {
    geometry: Geometry { block: 8192 },
    blocks: 1,
    page: Page::P4096,
};

/// Packed nodes, plain ones, and a name that an index cannot keep without memory.
const LINES: [&str; 5] = [
    "create /a 644",
    "write /a 0 5000",
    "text /a 8 abcdefgh",
    "put /name-of-more-than-sixteen-bytes 644 300",
    "remove-if /a",
];

pub type Log<'b> = PackingSession<LittleEndian, Matcher<'b>>;

/// What operations put onto an empty flash; none where a growth is refused.
pub fn output_of(alloc: Global, ops: &[Op<'_>]) -> Option<Vec<u8>> {
    let mut contents = Vec::new(alloc);
    let mounted = mount_through::<LittleEndian>(alloc, &[], FLASH.geometry, &mut contents).ok()?;
    let sink = Taker::new(alloc);
    let mut session = PackingSession::<LittleEndian, Taker>::resume(
        alloc,
        &mounted,
        FLASH,
        NodeForms::Packed,
        sink,
    ).ok()?;
    let report = session.run(alloc, ops);
    match report.stopped {
        None => Some(session.finish().bytes),
        Some(_) => None,
    }
}

/// Where the bytes of these nodes end, or `end` where there are none.
fn end_of(places: &[Place], end: u64) -> u64 {
    match places.last() {
        Some(place) => pad4(place.addr.wrapping_add(place.totlen)),
        None => end,
    }
}

/// What a session is to put, and where it begins.
#[derive(Clone, Copy)]
pub struct Wanted<'w> {
    pub bytes: &'w [u8],
    pub from: u32,
}

/// Applies operations. One whose growth is refused is applied again: it does what it did not, in
/// the same bytes, or, where a byte of it went out, the session is broken. Whether that is so of
/// all.
pub fn are_applied(alloc: Global, mut log: Log<'_>, ops: &[Op<'_>], wanted: Wanted<'_>) -> bool {
    let mut end = u64::from(wanted.from);
    for op in ops {
        let mut applied = log.apply(alloc, op);
        if matches!(applied, Err(SessionFault::OutOfMemory)) {
            applied = log.apply(alloc, op);
        }
        match applied {
            Ok(applied) => end = end_of(&applied.places, end),
            Err(fault) => {
                let taken = wanted.bytes.len().saturating_sub(log.finish().rest.len());
                let whole = end.saturating_sub(u64::from(wanted.from));
                return fault == SessionFault::Broken && whole < taken as u64;
            }
        }
    }
    log.finish().rest.is_empty()
}

/// Runs operations, and applies those that a refused growth left.
pub fn are_run(alloc: Global, mut log: Log<'_>, ops: &[Op<'_>], wanted: Wanted<'_>) -> bool {
    let report = log.run(alloc, ops);
    match report.stopped {
        None | Some(SessionFault::OutOfMemory) => {
            are_applied(
                alloc,
                log,
                ops.get(report.accepted..).unwrap_or(ops),
                wanted,
            )
        }
        Some(_) => false,
    }
}

/// A session on a mounted image. One that is refused its memory hands its sink back, and is asked
/// for again.
fn log_on<'b>(
    alloc: Global,
    mounted: &Mounted<'_>,
    sink: Matcher<'b>,
) -> Result<Log<'b>, Matcher<'b>>
    requires { IsMountThroughOf Little 8192 mounted.now }
{
    match Log::resume(alloc, mounted, FLASH, NodeForms::Packed, sink) {
        Ok(log) => Ok(log),
        Err((_, sink)) => {
            Log::resume(alloc, mounted, FLASH, NodeForms::Packed, sink).map_err(|(_, sink)| sink)
        }
    }
}

/// A session on an empty flash puts these bytes for these operations.
fn are_put(alloc: Global, ops: &[Op<'_>], whole: &[u8], in_one_run: bool) -> bool {
    let mut contents = Vec::new(alloc);
    let Ok(mounted) = mount_through::<LittleEndian>(alloc, &[], FLASH.geometry, &mut contents)
    else {
        return true;
    };
    let sink = Matcher {
        rest: whole,
        failures: 0,
    };
    let wanted = Wanted {
        bytes: whole,
        from: 0,
    };
    match log_on(alloc, &mounted, sink) {
        Ok(log) if in_one_run => are_run(alloc, log, ops, wanted),
        Ok(log) => are_applied(alloc, log, ops, wanted),
        Err(_) => false,
    }
}

/// Passes with each allocation failing in turn too. Where the memory for the operations or for what
/// they are to put is refused, nothing is run.
#[test]
fn refused_growth_of_packing_sessions(rt: HostRuntime) {
    let Ok(ops) = ops_of(rt.alloc(), &LINES, BY) else {
        return;
    };
    if let Some(whole) = output_of(rt.alloc(), &ops) {
        expect(&rt, are_put(rt.alloc(), &ops, &whole, false));
        expect(&rt, are_put(rt.alloc(), &ops, &whole, true));
    }
}
