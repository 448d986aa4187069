//! Where sessions begin.

use crate::checks::{equal, equal_at, expect};
use byteorder::LittleEndian;
use jlog::{Flash, Session, SessionFault, Start};
use jmount::mount;
use jscan::{Geometry, Page};
use std::alloc::Global;
use std::process::Abort;
use std::test::Fail;
use test_operations::{BY, op_of};
use test_support::{FORBIDS, MADE, Taker};

type Log<'a> = Session<'a, LittleEndian, Taker>;

/// The bytes of a block, the number of blocks, a page, and where writing goes on.
type Row = (u32, u32, Page, Result<u32, SessionFault>);

/// Onto nothing.
fn on_nothing() -> &'static [Row] {
    &[
        (8192, 1, Page::P4096, Ok(0)),
        (8192, 1, Page::P8192, Err(SessionFault::Geometry)),
        (16_384, 1, Page::P16384, Err(SessionFault::Geometry)),
        (8192, 0, Page::P4096, Err(SessionFault::Geometry)),
        (4096, 1, Page::P4096, Err(SessionFault::Geometry)),
    ]
}

/// Onto an image that has a file.
fn on_a_file() -> &'static [Row] {
    &[
        (8192, 3, Page::P4096, Ok(8192)),
        (16_384, 4, Page::P8192, Ok(16_384)),
        (65_536, 2, Page::P16384, Ok(65_536)),
    ]
}

/// Onto an image that forbids writing.
fn on_what_forbids() -> &'static [Row] {
    &[
        (8192, 1, Page::P4096, Err(SessionFault::ReadOnly)),
        (8192, 0, Page::P8192, Err(SessionFault::ReadOnly)),
    ]
}

/// Where writing goes on from a base. A session that can begin there has the base and the flash.
fn address_of(
    rt: &impl Abort,
    alloc: Global,
    base: &[u8],
    flash: Flash,
) -> Result<Result<u32, SessionFault>, Fail> {
    let mounted = mount::<LittleEndian>(alloc, base, flash.geometry)?;
    match Start::<LittleEndian>::of(&mounted, flash) {
        Ok(start) => {
            expect(rt, start.mounted().image() == base);
            equal(rt, start.flash(), flash);
            Ok(Ok(start.address()))
        }
        Err(fault) => Ok(Err(fault)),
    }
}

fn begin(rt: &impl Abort, alloc: Global, base: &[u8], rows: &[Row]) -> Result<(), Fail> {
    for &(block, blocks, page, want) in rows {
        let flash = Flash {
            geometry: Geometry { block },
            blocks,
            page,
        };
        let found = address_of(rt, alloc, base, flash)?;
        equal_at(rt, found, want, (block, blocks));
    }
    Ok(())
}

#[test]
fn where_a_session_begins(rt: HostRuntime) -> Result<(), Fail> {
    begin(&rt, rt.alloc(), &[], on_nothing())?;
    begin(&rt, rt.alloc(), &MADE, on_a_file())?;
    begin(&rt, rt.alloc(), &FORBIDS, on_what_forbids())
}

/// Whether a session's nodes of a new file go to these places.
fn goes_to(alloc: Global, session: &mut Log<'_>, places: &[(u32, u32)]) -> bool {
    let Some(op) = op_of("create /b 644", BY) else {
        return false;
    };
    match session.apply(alloc, &op) {
        Ok(applied) => applied
            .places
            .iter()
            .map(|place| (place.addr, place.totlen))
            .eq(places.iter().copied()),
        Err(_) => false,
    }
}

fn begins_at(rt: &impl Abort, alloc: Global, start: &Start<'_, '_, LittleEndian>) {
    let Ok(mut session) = Log::begin(alloc, start, Taker::new(alloc)) else {
        return expect(rt, false);
    };
    expect(rt, session.base() == MADE.as_slice());
    equal(rt, session.cursor(), 16_384);
    let is_put = goes_to(alloc, &mut session, &[(16_396, 68), (16_464, 41)]);
    expect(rt, is_put);
    equal(rt, session.cursor(), 16_508);
    equal(rt, session.finish().bytes.len(), 124);
}

/// It has the base, and writes behind it, by the flash's blocks.
#[test]
fn a_session_that_begins(rt: HostRuntime) -> Result<(), Fail> {
    let flash = Flash {
        geometry: Geometry { block: 16_384 },
        blocks: 2,
        page: Page::P8192,
    };
    let mounted = mount::<LittleEndian>(rt.alloc(), &MADE, flash.geometry)?;
    let start = Start::<LittleEndian>::of(&mounted, flash);
    expect(&rt, start.is_ok());
    if let Ok(start) = start {
        begins_at(&rt, rt.alloc(), &start);
    }
    Ok(())
}
