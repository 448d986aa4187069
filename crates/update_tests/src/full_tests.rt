//! Operations that do not fit into openings: nothing of them is put, and smaller ones fit
//! afterwards.

ghost use Rattle.std.specs.Prelude.{◌≡◌, ◌≤◌, ◌*◌, true};
ghost use Rattle.jscan.specs.Image.{is_block_size, greatest_image};
ghost use Rattle.jrests.specs.Openings.{AreOpeningsOf};
ghost use Rattle.jpacked.specs.View.{base_of_mount};
ghost use Rattle.jview.specs.Through.{IsMountThroughOf};

use crate::cases::ops_by;
use crate::checks::expect_at;
use crate::grounds::{AROUND, FLASH, fronts_of};
use crate::placed::has_openings;
use crate::sessions::{Rows, Way, openings_in, session_in};
use byteorder::{BigEndian, LittleEndian};
use jlog::{Flash, SessionFault};
use jmount::Mounted;
use jnode::Order;
use jpacked::NodeForms;
use jrests::Opening;
use jsteps::Op;
use jthrough::mount_through;
use jupdate::OpeningSession;
use std::alloc::Global;
use std::test::Fail;
use test_support::Taker;

/// Operations in openings of a base in its own forms, of which one does not fit: which openings and
/// forms they are, how many of the operations fit before it, and what it is told.
#[derive(Clone, Copy)]
struct Tight {
    about: &'static str,
    rows: Rows,
    forms: NodeForms,
    lines: &'static [&'static str],
    fitting: usize,
    needed: u64,
    free: u64,
}

/// A page of bytes is a node of 4,164. The nodes of the base end at 424 of the one block, and at
/// 624 of the other; a blank block has room for 8,180 bytes behind its marker.
fn rows() -> &'static [Tight] {
    &[
        Tight {
            about: "more than the rests have",
            rows: Rows::Rests,
            forms: NodeForms::Own,
            lines: &["write /a 0 16384", "write /a 0 4096"],
            fitting: 0,
            needed: 16_656,
            free: 15_336,
        },
        Tight {
            about: "room enough for all nodes, and for each no opening",
            rows: Rows::Rests,
            forms: NodeForms::Own,
            lines: &["write /a 0 12288", "write /a 0 8192"],
            fitting: 0,
            needed: 12_492,
            free: 15_336,
        },
        Tight {
            about: "three blank blocks, each of which takes one node",
            rows: Rows::Blank,
            forms: NodeForms::Own,
            lines: &["write /a 0 16384", "write /a 0 12288"],
            fitting: 0,
            needed: 16_656,
            free: 24_540,
        },
        Tight {
            about: "what is left behind four nodes",
            rows: Rows::All,
            forms: NodeForms::Own,
            lines: &["write /a 0 16384", "write /a 0 8192", "write /a 0 4096"],
            fitting: 1,
            needed: 8328,
            free: 11_584,
        },
    ]
}

/// How many bytes a session put.
fn taken<E: Order>(session: &mut OpeningSession<E, Taker>, alloc: Global) -> usize {
    session.replace_sink(Taker::new(alloc)).bytes.len()
}

/// Whether the first operations fit, the next one does not, with nothing put, and those behind it
/// fit.
fn is_refused<E: Order>(
    alloc: Global,
    mut session: OpeningSession<E, Taker>,
    ops: &[Op<'_>],
    tight: &Tight,
) -> bool {
    let (before, rest) = ops.split_at(tight.fitting.min(ops.len()));
    let (refused, after) = rest.split_at(rest.len().min(1));
    let first = session.run(alloc, before);
    let is_put = taken(&mut session, alloc) > 0 || before.is_empty();
    let held = session.held();
    let full = session.run(alloc, refused);
    let is_kept = taken(&mut session, alloc) == 0 && session.held() == held;
    let last = session.run(alloc, after);
    let fault = SessionFault::Full {
        needed: tight.needed,
        free: tight.free,
    };
    first.stopped.is_none()
        && is_put
        && full.stopped == Some(fault)
        && full.accepted == 0
        && full.places.is_empty()
        && is_kept
        && last.stopped.is_none()
        && taken(&mut session, alloc) > 0
}

fn is_refused_on<E: Order>(
    alloc: Global,
    mounted: &Mounted<'_>,
    way: Way,
    row: Vec<Opening>,
    ops: &[Op<'_>],
    tight: &Tight,
) -> Result<bool, SessionFault>
    requires through { IsMountThroughOf E.order way.flash.geometry.block mounted.now }
    requires row { AreOpeningsOf E.order way.flash.geometry.block way.flash.blocks
        (base_of_mount mounted.now) row.items }
{
    let session = session_in::<E>(alloc, mounted, way, row, Taker::new(alloc))?;
    Ok(is_refused::<E>(alloc, session, ops, tight))
}

fn is_refused_in<E: Order>(
    alloc: Global,
    image: &[u8],
    flash: Flash,
    ops: &[Op<'_>],
    tight: &Tight,
) -> Result<bool, Fail>
    requires readable { is_block_size flash.geometry.block ≡ true }
    requires small { flash.blocks * flash.geometry.block ≤ greatest_image }
{
    let way = Way {
        flash,
        forms: tight.forms,
        rows: tight.rows,
    };
    let mut contents = Vec::new(alloc);
    let mounted = mount_through::<E>(alloc, image, flash.geometry, &mut contents)?;
    let row = openings_in::<E>(alloc, mounted.image(), flash, tight.rows)?;
    Ok(is_refused_on::<E>(alloc, &mounted, way, row, ops, tight)?)
}

fn is_tight<E: Order>(alloc: Global, tight: &Tight, ops: &[Op<'_>]) -> Result<bool, Fail> {
    let flash = AROUND.flash(FLASH);
    if !has_openings(flash) {
        return Err(Fail::from("no openings"));
    }
    let fronts = fronts_of::<E>(alloc, NodeForms::Own).ok_or("no base")?;
    let image = AROUND.image(alloc, &fronts, flash.geometry.block)?;
    is_refused_in::<E>(alloc, &image, flash, ops, tight)
}

#[test]
fn what_does_not_fit(rt: HostRuntime) -> Result<(), Fail> {
    for tight in rows() {
        let ops = ops_by(rt.alloc(), tight.lines)?;
        let little = is_tight::<LittleEndian>(rt.alloc(), tight, &ops)?;
        let big = is_tight::<BigEndian>(rt.alloc(), tight, &ops)?;
        expect_at(&rt, little && big, tight.about);
    }
    Ok(())
}

/// The rests take 97 packed nodes of 80 bytes and 94 of them: 8 bytes are left of the first one, 48
/// of the second. A node without bytes has 68, an entry of a name of one letter 41.
#[test]
fn packed_nodes_fill_the_rests(rt: HostRuntime) -> Result<(), Fail> {
    let mut lines = Vec::new(rt.alloc());
    lines.resize(192, "write /a 0 300")?;
    lines.push("remove-if /b")?;
    let tight = Tight {
        about: "",
        rows: Rows::Rests,
        forms: NodeForms::Packed,
        lines: &[],
        fitting: 191,
        needed: 80,
        free: 48,
    };
    let ops = ops_by(rt.alloc(), &lines)?;
    let little = is_tight::<LittleEndian>(rt.alloc(), &tight, &ops)?;
    let big = is_tight::<BigEndian>(rt.alloc(), &tight, &ops)?;
    expect_at(&rt, little && big, "packed");
    Ok(())
}
