//! Whether an operation is accepted: as a whole, before a byte of it is put.

ghost use Rattle.std.specs.Prelude.{◌≡◌, ◌≤◌, ◌+◌, [], length, is_some, IsTrue, IfOk, IfErr};
ghost use Rattle.jscan.specs.Pages.{page_size};
ghost use Rattle.jsteps.specs.Laws.{OpFits};
ghost use Rattle.jsteps.specs.Planning.{most_steps};
ghost use Rattle.jlog.specs.Places.{is_writable_flash};
ghost use Rattle.jlog.specs.Running.{CanWriteIn};
ghost use Rattle.jview.specs.Through.{greatest_contents};
ghost use Rattle.jupdate.specs.Accepting.{flash_in_room, AreFittingIn, ChoosesNoneIn, IsChosenIn, DeclinesIn};
ghost use Rattle.jopenings.specs.Stretches.{AreStretches};
ghost use Rattle.jupdate.specs.Rows.{ends_of, left_at};
ghost use Rattle.jupdate.specs.SessionIn.{IsGoingIn};
ghost use Rattle.jupdate.specs.Writing.{log_in};

use crate::room::has_room;
use crate::row::{Cursor, free_in};
use jlog::{Blocks, SessionFault};
use jnode::Order;
use jopenings::Stretch;
use jpacked::{Chosen, Packing, choose_by, needed, plan};
use jscan::Page;
use jsteps::{Index, Op, Step};
use std::alloc::Global;

/// The flash that is written, the page by which files are cut, where writing goes on in a row of
/// openings, and how many bytes the contents of the compressed nodes have.
#[derive(Clone, Copy)]
pub(crate) struct Room {
    pub flash: Blocks,
    pub page: Page,
    pub cursor: Cursor,
    pub held: u32,
}

/// The steps of an operation, and what was chosen for their nodes.
#[derive(Drop)]
pub(crate) struct Taken<'o> {
    pub steps: Vec<Step<'o>>,
    pub chosen: Chosen,
}

/// Packs the data of steps, if they are packed, and judges whether the forms of their nodes fit.
fn choose_fitting<E: Order>(
    alloc: Global,
    index: &Index,
    room: &Room,
    stretches: &[Stretch],
    steps: &[Step<'_>],
    packing: &mut Option<Packing>,
) -> Result<Chosen, SessionFault>
    requires flash { IsTrue (is_writable_flash room.now.flash.size room.now.flash.count) }
    requires stretches { AreStretches room.now.flash.size 0 room.now.flash.count stretches.now }
    requires going { IsGoingIn room.now.flash.size room.now.flash.count
        (left_at (ends_of stretches.now) room.now.cursor) index.now }
    requires steps { CanWriteIn room.now.flash.size E.order index.now steps.now }
    requires few { length steps.now ≤ most_steps }
    requires held { room.now.held ≤ greatest_contents }
    ensures fitting { IfOk result (λ chosen. AreFittingIn
        (flash_in_room E.order (is_some packing.old) room.now)
        (log_in (left_at (ends_of stretches.now) room.now.cursor) index.now []) steps.now
        chosen.streams.items chosen.held) }
    ensures packs { is_some packing.new ≡ is_some packing.old }
    ensures none { IfErr result (ChoosesNoneIn
        (flash_in_room E.order (is_some packing.old) room.now)
        (log_in (left_at (ends_of stretches.now) room.now.cursor) index.now []) steps.now) }
{
    let chosen = choose_by::<E>(alloc, index, steps, room.held, packing)?;
    if !has_room::<E>(
        index,
        room.flash,
        stretches,
        room.cursor,
        steps,
        &chosen.streams,
    ) {
        return Err(SessionFault::Full {
            needed: needed::<E>(index, steps, &chosen.streams),
            free: free_in(room.flash, stretches, room.cursor),
        });
    }
    Ok(chosen)
}

/// The steps of an operation whose forms fit, with what was chosen for them; or why it is not
/// accepted.
pub(crate) fn accept<'o, E: Order>(
    alloc: Global,
    index: &Index,
    room: &Room,
    stretches: &[Stretch],
    op: &'o Op<'_>,
    packing: &mut Option<Packing>,
) -> Result<Taken<'o>, SessionFault>
    requires flash { IsTrue (is_writable_flash room.now.flash.size room.now.flash.count) }
    requires holds { page_size room.now.page + 80 ≤ room.now.flash.size }
    requires stretches { AreStretches room.now.flash.size 0 room.now.flash.count stretches.now }
    requires going { IsGoingIn room.now.flash.size room.now.flash.count
        (left_at (ends_of stretches.now) room.now.cursor) index.now }
    requires held { room.now.held ≤ greatest_contents }
    requires known { OpFits op.now }
    ensures accepted { IfOk result (λ taken. IsChosenIn
        (flash_in_room E.order (is_some packing.old) room.now)
        (log_in (left_at (ends_of stretches.now) room.now.cursor) index.now []) op.now
        taken.steps.items taken.chosen.streams.items taken.chosen.held) }
    ensures packs { is_some packing.new ≡ is_some packing.old }
    ensures declined { IfErr result (DeclinesIn
        (flash_in_room E.order (is_some packing.old) room.now)
        (log_in (left_at (ends_of stretches.now) room.now.cursor) index.now []) op.now) }
{
    let steps = plan(alloc, index, room.page, op)?;
    match choose_fitting::<E>(alloc, index, room, stretches, &steps, packing) {
        Ok(chosen) => Ok(Taken { steps, chosen }),
        Err(fault) => Err(fault),
    }
}
