//! Operations that are planned, and told with the numbers of their lines.

use crate::checks::{expect, expect_at};
use crate::cuts::sessions::{GEOMETRY, create, write};
use byteorder::LittleEndian;
use flashbase::Sink;
use jcuts::{CutsFault, Telling, put_cuts};
use jlog::{Flash, SessionFault, Start};
use jmount::mount;
use jscan::Page;
use jsteps::{Op, OpFault};
use std::alloc::Global;
use test_support::Taker;

pub(crate) const FLASH: Flash = Flash {
    geometry: GEOMETRY,
    blocks: 1,
    page: Page::P4096,
};

/// The numbers of the operations' lines.
const LINES: [usize; 4] = [3, 5, 6, 8];

const TOLD: &str = "0000000c 68 line 3 step 1 of 2 stands from 00000050\n\
    00000050 41 line 3 step 2 of 2 stands from 00000079\n\
    0000007c 71 line 5 step 1 of 1 stands from 000000c0\n\
    000000c4 73 line 6 step 1 of 1 stands from 0000010d\n\
    weak 000000c4 at 68\n\
    total operations 3 steps 4 from 00000000 to 00000110 weak 1\n";

const NOTES: &str = "jffs2_image: note: weak 000000c4 at 68\n";

/// What is told where the weak node is written first.
pub(crate) const WEAK_TOLD: &str = "0000000c 68 line 3 step 1 of 2 stands from 00000050\n\
    00000050 41 line 3 step 2 of 2 stands from 00000079\n\
    0000007c 73 line 5 step 1 of 1 stands from 000000c5\n\
    weak 0000007c at 68\n\
    total operations 2 steps 3 from 00000000 to 000000c8 weak 1\n";

const WEAK_NOTES: &str = "jffs2_image: note: weak 0000007c at 68\n";

/// Five bytes of which a cut goes unseen.
pub(crate) const WEAK_BYTES: &[u8] = b"\xBE\xF9\x8E\x24\xFE";

/// Tells operations from where a log goes on.
fn tell_from<T: Sink>(
    alloc: Global,
    start: &Start<'_, '_, LittleEndian>,
    telling: Telling,
    ops: &[Op<'_>],
    sink: &mut T,
) -> Option<Result<usize, CutsFault>> {
    let lines = LINES.get(..ops.len())?;
    Some(put_cuts::<LittleEndian, T>(alloc, start, telling, ops, lines, sink))
}

/// Tells operations on an empty base; nothing where none can be told.
fn tell<T: Sink>(
    alloc: Global,
    telling: Telling,
    ops: &[Op<'_>],
    sink: &mut T,
) -> Option<Result<usize, CutsFault>> {
    let mounted = mount::<LittleEndian>(alloc, &[], FLASH.geometry).ok()?;
    match Start::<LittleEndian>::of(&mounted, FLASH) {
        Ok(start) => tell_from(alloc, &start, telling, ops, sink),
        Err(_) => None,
    }
}

/// Whether operations of which one node is weak are told so, in both ways.
fn are_told(alloc: Global, ops: &[Op<'_>], nodes: &str, notes: &str) -> bool {
    let mut lines = Taker::new(alloc);
    let mut weak = Taker::new(alloc);
    let told = tell(alloc, Telling::Nodes, ops, &mut lines);
    let noted = tell(alloc, Telling::WeakNotes, ops, &mut weak);
    let is_all = lines.took(0, nodes.as_bytes()) && weak.took(0, notes.as_bytes());
    is_all && told == Some(Ok(1)) && noted == Some(Ok(1))
}

#[test]
fn operations_are_told(rt: HostRuntime) {
    let ops = [create(), write(b"\xFF\xFF\xFF"), write(WEAK_BYTES)];
    expect(&rt, are_told(rt.alloc(), &ops, TOLD, NOTES));
    let ops = [create(), write(WEAK_BYTES)];
    expect(&rt, are_told(rt.alloc(), &ops, WEAK_TOLD, WEAK_NOTES));
}

/// The lines of the operations before a refused one stand.
#[test]
fn a_refused_operation_ends_it(rt: HostRuntime) {
    let ops = [create(), create(), write(WEAK_BYTES)];
    let mut sink = Taker::new(rt.alloc());
    let told = tell(rt.alloc(), Telling::Nodes, &ops, &mut sink);
    let wanted = CutsFault::Session {
        fault: SessionFault::Refused(OpFault::Exists),
        line: Some(5),
        blocks: Ok(None),
    };
    expect(
        &rt,
        told == Some(Err(wanted)) && sink.took(0, &TOLD.as_bytes()[..104]),
    );
}

/// How many blocks are told where room is wanting for the operation of line 5.
fn least(told: &Option<Result<usize, CutsFault>>) -> Option<u32> {
    match told {
        Some(
            Err(
                CutsFault::Session {
                    fault: SessionFault::Full { .. },
                    line: Some(5),
                    blocks: Ok(blocks),
                },
            ),
        ) => *blocks,
        _ => None,
    }
}

/// Two nodes of a page each need a block of their own.
#[test]
fn least_blocks_are_told(rt: HostRuntime) {
    let ops = [create(), write(&[0x55; 8192]), write(WEAK_BYTES)];
    let mut sink = Taker::new(rt.alloc());
    let told = tell(rt.alloc(), Telling::Nodes, &ops, &mut sink);
    expect(
        &rt,
        least(&told) == Some(2) && sink.took(0, &TOLD.as_bytes()[..104]),
    );
}

/// Whether a sink that takes no more than so many bytes ends it, and has them.
fn ends_at(alloc: Global, ops: &[Op<'_>], limit: usize) -> bool {
    let mut sink = Taker::limited(alloc, 7, limit);
    let told = tell(alloc, Telling::Nodes, ops, &mut sink);
    sink.failures == 1
        && told == Some(Err(CutsFault::Output))
        && TOLD.as_bytes().get(..limit) == Some(sink.bytes.as_slice())
}

/// Each has taken a beginning of the text.
#[test]
fn sinks_that_fail_within(rt: HostRuntime) {
    let ops = [create(), write(b"\xFF\xFF\xFF"), write(WEAK_BYTES)];
    for limit in [0, 51, 52, 103, 104, 155, 156, 207, 208, 227, 228, 287] {
        expect_at(&rt, ends_at(rt.alloc(), &ops, limit), limit);
    }
}
