//! Where sessions may go on, and what would hold an operation.

ghost use Rattle.jnode.specs.declared.order.Endian.TheVariants.{Little};
ghost use Rattle.jmount.specs.Mounts.{IsMountOf};

use crate::checks::{equal, equal_at};
use byteorder::LittleEndian;
use jlog::{Session, SessionFault, resume_at};
use jmount::{Mounted, mount};
use jscan::Geometry;
use jsteps::{Op, OpFault};
use std::alloc::Global;
use std::test::Fail;
use test_operations::{BY, ops_of};
use test_support::{FORBIDS, Taker};

const GEOMETRY: Geometry = Geometry { block: 8192 };

/// Where writing goes on from an image, on a flash of so many blocks of a size.
fn goes_on(
    alloc: Global,
    image: &[u8],
    block: u32,
    blocks: u32,
) -> Result<Result<u32, SessionFault>, Fail> {
    let geometry = Geometry { block };
    let mounted = mount::<LittleEndian>(alloc, image, geometry)?;
    Ok(resume_at::<LittleEndian>(&mounted, geometry, blocks))
}

/// A flash's block and number of blocks, and where writing begins on it.
fn empty_flashes() -> &'static [(u32, u32, Result<u32, SessionFault>)] {
    &[
        (8192, 1, Ok(0)),
        (8192, 0, Err(SessionFault::Geometry)),
        (4096, 1, Err(SessionFault::Geometry)),
        (8192, 32768, Ok(0)),
        (8192, 32769, Err(SessionFault::Geometry)),
        (8192, u32::MAX, Err(SessionFault::Geometry)),
    ]
}

#[test]
fn where_writing_may_begin(rt: HostRuntime) -> Result<(), Fail> {
    for &(block, blocks, want) in empty_flashes() {
        let found = goes_on(rt.alloc(), &[], block, blocks)?;
        equal_at(&rt, found, want, (block, blocks));
    }
    Ok(())
}

#[test]
fn where_writing_may_go_on(rt: HostRuntime) -> Result<(), Fail> {
    let long = vec![in rt.alloc(); 0xFFu8; 8193]?;
    equal(&rt, goes_on(rt.alloc(), &long, 8192, 2)?, Ok(0));
    let too_long = goes_on(rt.alloc(), &long, 8192, 1)?;
    equal(&rt, too_long, Err(SessionFault::Geometry));
    for blocks in [1, 0] {
        let found = goes_on(rt.alloc(), &FORBIDS, 8192, blocks)?;
        equal(&rt, found, Err(SessionFault::ReadOnly));
    }
    Ok(())
}

type Log<'a> = Session<'a, LittleEndian, Taker>;

/// What a session tells of the blocks of the last operation, once it ran those before.
fn told_by(
    alloc: Global,
    mut session: Log<'_>,
    ops: &[Op<'_>],
) -> Result<Option<u32>, SessionFault> {
    match ops.split_last() {
        Some((next, before)) => {
            let _ = session.run(alloc, before);
            session.blocks_for(alloc, next)
        }
        None => Ok(None),
    }
}

/// The same of a session on a mounted image, whose sink takes so many bytes.
fn told_on(
    alloc: Global,
    mounted: &Mounted<'_>,
    ops: &[Op<'_>],
    limit: usize,
) -> Result<Option<u32>, SessionFault>
    requires { IsMountOf Little 8192 mounted.now }
{
    let session = Log::resume(alloc, mounted, GEOMETRY, 1, Taker::limited(alloc, 7, limit))?;
    told_by(alloc, session, ops)
}

/// The same of lines, on an image without nodes.
fn told_after(
    alloc: Global,
    mounted: &Mounted<'_>,
    lines: &'static [&'static str],
) -> Option<Result<Option<u32>, SessionFault>>
    requires { IsMountOf Little 8192 mounted.now }
{
    let ops = ops_of(alloc, lines, BY).ok()?;
    Some(told_on(alloc, mounted, &ops, 124))
}

/// Operations, and what is told of the blocks of the last one.
type Row = (&'static [&'static str], Result<Option<u32>, SessionFault>);

fn blocks_told() -> &'static [Row] {
    &[
        (&["create /a 644"], Ok(Some(1))),
        (&["create /a 644", "write /a 0 0"], Ok(Some(0))),
        (&["create /a 644", "write /a 0 4000"], Ok(Some(1))),
        (&["create /a 644", "write /a 0 8192"], Ok(Some(2))),
        (&["create /a 644", "write /a 0 20000"], Ok(Some(4))),
        (
            &["create /a 644", "create /a 644"],
            Err(SessionFault::Refused(OpFault::Exists)),
        ),
        (
            &["create /a 644", "write /a 0 10", "write /a 0 0"],
            Err(SessionFault::Broken),
        ),
    ]
}

#[test]
fn the_blocks_that_hold_an_operation(rt: HostRuntime) -> Result<(), Fail> {
    let mounted = mount::<LittleEndian>(rt.alloc(), &[], GEOMETRY)?;
    for &(lines, want) in blocks_told() {
        let found = told_after(rt.alloc(), &mounted, lines);
        equal_at(&rt, found, Some(want), lines);
    }
    Ok(())
}
