//! A session that goes on with another sink, and tells where it goes on.

use crate::checks::expect;
use crate::cuts::cuts::FLASH;
use byteorder::LittleEndian;
use jlog::{Session, Start};
use jmount::mount;
use jscan::Geometry;
use jsteps::{Op, Text};
use std::alloc::Global;
use std::test::Fail;
use test_support::{MADE, Taker};

type Log<'a> = Session<'a, LittleEndian, Taker>;

pub(crate) const GEOMETRY: Geometry = Geometry { block: 8192 };

/// A file is made.
pub(crate) fn create() -> Op<'static> {
    Op::Create {
        time: 0,
        path: Text::lent(b"/a"),
        mode: 0o644,
        uid: 0,
        gid: 0,
    }
}

/// Bytes are written to it.
pub(crate) fn write(bytes: &[u8]) -> Op<'_> {
    Op::Write {
        time: 0,
        path: Text::lent(b"/a"),
        offset: 0,
        bytes: Text::lent(bytes),
    }
}

/// The node of three bytes 0xFF alone, up to a multiple of 4.
fn is_written(sink: &Taker) -> bool {
    sink.bytes.len() == 72 && sink.bytes.ends_with(b"\xFF\xFF\xFF\xFF")
}

/// Runs an operation, and answers where the session then goes on, if it does.
fn applied(alloc: Global, session: &mut Log<'_>, op: &Op<'_>) -> Option<u32> {
    match session.apply(alloc, op) {
        Ok(_) => Some(session.cursor()),
        Err(_) => None,
    }
}

/// Whether the file's nodes are in the first sink and those of its bytes in the second, and the
/// session goes on behind each.
fn is_apart(alloc: Global, start: &Start<'_, '_, LittleEndian>) -> bool {
    let Ok(mut session) = Log::begin(alloc, start, Taker::new(alloc)) else {
        return false;
    };
    let made = applied(alloc, &mut session, &create());
    let first = session.replace_sink(Taker::new(alloc));
    let written = applied(alloc, &mut session, &write(b"\xFF\xFF\xFF"));
    let second = session.finish();
    made == Some(124) && written == Some(196) && first.took(0, &MADE) && is_written(&second)
}

#[test]
fn each_sink_has_its_bytes(rt: HostRuntime) -> Result<(), Fail> {
    let mounted = mount::<LittleEndian>(rt.alloc(), &[], GEOMETRY)?;
    let start = Start::<LittleEndian>::of(&mounted, FLASH)?;
    expect(&rt, is_apart(rt.alloc(), &start));
    Ok(())
}
