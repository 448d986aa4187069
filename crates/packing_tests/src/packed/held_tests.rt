//! How many bytes of content a session holds.

ghost use Rattle.jnode.specs.declared.order.Endian.TheVariants.{Little};
ghost use Rattle.jview.specs.Through.{IsMountThroughOf};

use crate::checks::expect_at;
use crate::packed::cases::bases;
use crate::packed::cut_tests::{base_of, ops_in_time};
use crate::packed::sessions::session_on;
use byteorder::LittleEndian;
use jlog::{Flash, SessionFault};
use jmount::Mounted;
use jpacked::{NodeForms, PackingSession};
use jscan::{Geometry, Page};
use jsteps::Op;
use jthrough::mount_through;
use std::alloc::Global;
use std::test::Fail;
use test_support::Taker;

/// Two blocks, by pages of 4,096.
const FLASH: Flash = Flash {
    geometry: Geometry { block: 8192 },
    blocks: 2,
    page: Page::P4096,
};

/// Bytes that are packed, bytes that do not get shorter, more that are packed, a file that is cut,
/// a name that is there, and a file of two pages.
const LINES: [&str; 7] = [
    "create /c 644",
    "write /c 0 300",
    "text /c 8 0123456789",
    "write /c 50 200",
    "truncate /c 40",
    "create /c 600",
    "file /d 644 5001",
];

/// How much content there is after each of them: that of the base, and that of what was packed.
struct Held {
    forms: NodeForms,
    is_on_base: bool,
    counts: [u32; 8],
}

/// The base has files of 5,001 and 300 bytes, all of them packed. The operation before the last is
/// refused.
fn rows() -> &'static [Held] {
    &[
        Held {
            forms: NodeForms::Packed,
            is_on_base: false,
            counts: [0, 0, 300, 300, 500, 500, 500, 5501],
        },
        Held {
            forms: NodeForms::Packed,
            is_on_base: true,
            counts: [5301, 5301, 5601, 5601, 5801, 5801, 5801, 10_802],
        },
        Held {
            forms: NodeForms::Own,
            is_on_base: false,
            counts: [0; 8],
        },
        Held {
            forms: NodeForms::Own,
            is_on_base: true,
            counts: [5301; 8],
        },
    ]
}

/// Whether a session holds so much at first, and after each operation, of which one is refused.
fn holds(
    alloc: Global,
    mut session: PackingSession<LittleEndian, Taker>,
    ops: &[Op<'_>],
    counts: &[u32],
) -> bool {
    let mut is_well = counts.first() == Some(&session.held());
    let mut refused = 0u32;
    for (op, count) in ops.iter().zip(counts.iter().skip(1)) {
        if session.apply(alloc, op).is_err() {
            refused = refused.wrapping_add(1);
        }
        is_well = is_well && session.held() == *count;
    }
    is_well && refused == 1
}

fn session_holds(
    alloc: Global,
    mounted: &Mounted<'_>,
    ops: &[Op<'_>],
    row: &Held,
) -> Result<bool, SessionFault>
    requires { IsMountThroughOf Little 8192 mounted.now }
{
    let sink = Taker::new(alloc);
    let session = session_on::<LittleEndian>(alloc, mounted, FLASH, row.forms, sink)?;
    Ok(holds(alloc, session, ops, &row.counts))
}

fn is_held(alloc: Global, base: &[u8], row: &Held) -> Result<bool, Fail> {
    let ops = ops_in_time(alloc, &LINES)?;
    let mut contents = Vec::new(alloc);
    let image = if row.is_on_base { base } else { &[] };
    let mounted = mount_through::<LittleEndian>(alloc, image, FLASH.geometry, &mut contents)?;
    Ok(session_holds(alloc, &mounted, &ops, row)?)
}

#[test]
fn contents_are_counted(rt: HostRuntime) -> Result<(), Fail> {
    let case = bases().first().ok_or("no base")?;
    let base = base_of::<LittleEndian>(rt.alloc(), case)?;
    for row in rows() {
        expect_at(&rt, is_held(rt.alloc(), &base, row)?, row.counts);
    }
    Ok(())
}
