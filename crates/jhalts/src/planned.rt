//! Planning one operation: the forms that `update` would write, and where.

ghost use Rattle.std.specs.Prelude.{◌≡◌, OnOk, IfOk, IfErr};
ghost use Rattle.jhalts.specs.InRow.{forming_in_row, row_point_of, IsReadyIn, IsPlannedIn, IsDeclinedIn};

use crate::walking::{Walk, standings_of};
use jcuts::{Held, Standing, without_sink};
use jlog::SessionFault;
use jnode::Order;
use jsteps::Op;
use jupdate::OpeningSession;
use std::alloc::Global;

/// A log that is planned, and not written: what an operation puts is held until it is looked at.
pub(crate) type RowPlan<E> = OpeningSession<E, Held>;

/// Plans one operation after those that were planned before: the forms that it would write, in
/// order.
///
/// # Errors
/// `Refused`, `Full` and `OutOfMemory` as a session answers them.
pub(crate) fn plan_op<E: Order>(
    alloc: Global,
    plan: &mut RowPlan<E>,
    walk: &mut Walk,
    op: &Op<'_>,
) -> Result<Vec<Standing>, SessionFault>
    requires { IsReadyIn plan.old walk.old }
    ensures forming { forming_in_row plan.new ≡ forming_in_row plan.old }
    ensures planned { IfOk result (λ told. IsPlannedIn (forming_in_row plan.old)
        (row_point_of plan.old) op.now (row_point_of plan.new) told.items) }
    ensures ready { OnOk result (IsReadyIn plan.new walk.new) }
    ensures declined { IfErr result
        (IsDeclinedIn (forming_in_row plan.old) (row_point_of plan.old) op.now) }
{
    op.known();
    let applied = match plan.apply(alloc, op) {
        Ok(applied) => applied,
        Err(fault) => return Err(without_sink(fault)),
    };
    let held = plan.replace_sink(Held::new(alloc));
    match standings_of::<E>(alloc, plan.stretches(), walk, &held.bytes, &applied.places) {
        Ok(told) => Ok(told),
        Err(_) => Err(SessionFault::OutOfMemory),
    }
}
