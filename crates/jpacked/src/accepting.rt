//! Whether an operation is accepted: as a whole, before a byte of it is put.

ghost use Rattle.std.specs.Prelude.{◌≡◌, ◌≤◌, ◌+◌, [], length, is_some, IsTrue, Ok, IfOk, IfErr};
ghost use Rattle.jscan.specs.Pages.{page_size};
ghost use Rattle.jsteps.specs.Laws.{OpFits};
ghost use Rattle.jsteps.specs.Planning.{most_steps};
ghost use Rattle.jsteps.specs.Refusals.{planned_by};
ghost use Rattle.jlog.specs.Places.{is_writable_flash};
ghost use Rattle.jlog.specs.Running.{log_at, CanWriteIn};
ghost use Rattle.jlog.specs.Session.{IsGoing, IsNotPlanned};
ghost use Rattle.jview.specs.Through.{greatest_contents};
ghost use Rattle.jpacked.specs.Accepting.{flash_of_room, AreFitting, ChoosesNone, IsChosenFor, DeclinesAs};

use crate::packing::Packing;
use crate::planning::{Chosen, choose_by};
use crate::room::{has_room, needed};
use jlog::{Blocks, SessionFault, free};
use jnode::Order;
use jscan::Page;
use jsteps::{Index, Op, OpFault, Step, plan_paged};
use std::alloc::Global;

/// The flash that is written, the page by which files are cut, where writing goes on, and how many
/// bytes the contents of the compressed nodes have.
#[derive(Clone, Copy)]
pub(crate) struct Room {
    pub flash: Blocks,
    pub page: Page,
    pub cursor: u32,
    pub held: u32,
}

/// The steps of an operation, and what was chosen for their nodes.
#[derive(Drop)]
pub(crate) struct Taken<'o> {
    pub steps: Vec<Step<'o>>,
    pub chosen: Chosen,
}

/// The steps of an operation, by a page, or why it has none.
///
/// # Errors
/// `Refused` with the operation's fault, and `OutOfMemory`.
pub fn plan<'o>(
    alloc: Global,
    index: &Index,
    page: Page,
    op: &'o Op<'_>,
) -> Result<Vec<Step<'o>>, SessionFault>
    ensures planned { IfOk result
        (λ steps. planned_by (page_size page) index.now op.now ≡ Ok steps.items) }
    ensures few { IfOk result (λ steps. length steps.items ≤ most_steps) }
    ensures refused { IfErr result
        (λ fault. IsNotPlanned (page_size page) index.now op.now fault) }
{
    match plan_paged(alloc, index, op, page) {
        Ok(steps) => Ok(steps),
        Err(OpFault::OutOfMemory) => Err(SessionFault::OutOfMemory),
        Err(fault) => Err(SessionFault::Refused(fault)),
    }
}

/// Packs the data of steps, if they are packed, and judges whether the forms of their nodes fit.
fn choose_fitting<E: Order>(
    alloc: Global,
    index: &Index,
    room: &Room,
    steps: &[Step<'_>],
    packing: &mut Option<Packing>,
) -> Result<Chosen, SessionFault>
    requires flash { IsTrue (is_writable_flash room.now.flash.size room.now.flash.count) }
    requires going { IsGoing room.now.flash.size room.now.flash.count room.now.cursor index.now }
    requires steps { CanWriteIn room.now.flash.size E.order index.now steps.now }
    requires few { length steps.now ≤ most_steps }
    requires held { room.now.held ≤ greatest_contents }
    ensures fitting { IfOk result (λ chosen. AreFitting
        (flash_of_room E.order (is_some packing.old) room.now)
        (log_at room.now.cursor index.now []) steps.now chosen.streams.items chosen.held) }
    ensures packs { is_some packing.new ≡ is_some packing.old }
    ensures none { IfErr result (ChoosesNone (flash_of_room E.order (is_some packing.old) room.now)
        (log_at room.now.cursor index.now []) steps.now) }
{
    let chosen = choose_by::<E>(alloc, index, steps, room.held, packing)?;
    if !has_room::<E>(index, room.flash, room.cursor, steps, &chosen.streams) {
        return Err(SessionFault::Full {
            needed: needed::<E>(index, steps, &chosen.streams),
            free: free(room.flash.size, room.flash.count, room.cursor),
        });
    }
    Ok(chosen)
}

/// The steps of an operation whose forms fit, with what was chosen for them; or why it is not
/// accepted.
pub(crate) fn accept<'o, E: Order>(
    alloc: Global,
    index: &Index,
    room: &Room,
    op: &'o Op<'_>,
    packing: &mut Option<Packing>,
) -> Result<Taken<'o>, SessionFault>
    requires flash { IsTrue (is_writable_flash room.now.flash.size room.now.flash.count) }
    requires holds { page_size room.now.page + 80 ≤ room.now.flash.size }
    requires going { IsGoing room.now.flash.size room.now.flash.count room.now.cursor index.now }
    requires held { room.now.held ≤ greatest_contents }
    requires known { OpFits op.now }
    ensures accepted { IfOk result (λ taken. IsChosenFor
        (flash_of_room E.order (is_some packing.old) room.now)
        (log_at room.now.cursor index.now []) op.now taken.steps.items
        taken.chosen.streams.items taken.chosen.held) }
    ensures packs { is_some packing.new ≡ is_some packing.old }
    ensures declined { IfErr result (DeclinesAs
        (flash_of_room E.order (is_some packing.old) room.now)
        (log_at room.now.cursor index.now []) op.now) }
{
    let steps = plan(alloc, index, room.page, op)?;
    match choose_fitting::<E>(alloc, index, room, &steps, packing) {
        Ok(chosen) => Ok(Taken { steps, chosen }),
        Err(fault) => Err(fault),
    }
}
