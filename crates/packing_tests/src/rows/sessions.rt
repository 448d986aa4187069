//! Operations run into the row of an image.

ghost use Rattle.std.specs.Prelude.{◌≡◌, ◌≤◌, ◌*◌, true};
ghost use Rattle.jscan.specs.Image.{is_block_size, greatest_image};
ghost use Rattle.jrow.specs.Row.{blank_blocks};
ghost use Rattle.jpacked.specs.View.{base_of_mount};
ghost use Rattle.jview.specs.Through.{IsMountThroughOf};

use crate::packed::sessions::{Outcome, run_out};
use jlog::{Flash, SessionFault};
use jmount::Mounted;
use jnode::Order;
use jpacked::{NodeForms, PackingSession};
use jrow::Row;
use jsteps::Op;
use jthrough::mount_through;
use std::alloc::Global;
use std::test::Fail;
use test_support::Taker;

/// A flash, and the forms in which nodes go onto it.
#[derive(Clone, Copy)]
pub struct Way {
    pub flash: Flash,
    pub forms: NodeForms,
}

/// A session in the row of a mounted image.
fn session_in_row<E: Order>(
    alloc: Global,
    mounted: &Mounted<'_>,
    way: Way,
    row: &Row,
    sink: Taker,
) -> Result<PackingSession<E, Taker>, SessionFault>
    requires through { IsMountThroughOf E.order way.flash.geometry.block mounted.now }
    requires row { row.now ≡ blank_blocks E.order way.flash.geometry.block way.flash.blocks
        (base_of_mount mounted.now) }
{
    let Way { flash, forms } = way;
    match PackingSession::<E, Taker>::resume_in_row(alloc, mounted, flash, row, forms, sink) {
        Ok(session) => Ok(session),
        Err((fault, _)) => Err(fault),
    }
}

/// Runs operations into the row of a mounted image.
pub fn run_with<E: Order>(
    alloc: Global,
    mounted: &Mounted<'_>,
    way: Way,
    row: &Row,
    sink: Taker,
    ops: &[Op<'_>],
) -> Result<Outcome, SessionFault>
    requires through { IsMountThroughOf E.order way.flash.geometry.block mounted.now }
    requires row { row.now ≡ blank_blocks E.order way.flash.geometry.block way.flash.blocks
        (base_of_mount mounted.now) }
{
    let session = session_in_row::<E>(alloc, mounted, way, row, sink)?;
    Ok(run_out::<E>(alloc, session, ops))
}

/// Runs operations into the row of an image.
pub fn run_in_row<E: Order>(
    alloc: Global,
    image: &[u8],
    way: Way,
    sink: Taker,
    ops: &[Op<'_>],
) -> Result<Outcome, Fail>
    requires readable { is_block_size way.flash.geometry.block ≡ true }
    requires small { way.flash.blocks * way.flash.geometry.block ≤ greatest_image }
{
    let Flash {
        geometry,
        blocks,
        ..
    } = way.flash;
    let mut contents = Vec::new(alloc);
    let mounted = mount_through::<E>(alloc, image, geometry, &mut contents)?;
    let row = Row::of::<E>(alloc, mounted.image(), geometry, blocks)?;
    Ok(run_with::<E>(alloc, &mounted, way, &row, sink, ops)?)
}
