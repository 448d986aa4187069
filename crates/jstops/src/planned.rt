//! Planning one operation: the forms that it would write, and where.

ghost use Rattle.std.specs.Prelude.{◌≡◌, OnOk, IfOk, IfErr};
ghost use Rattle.jstops.specs.Planned.{forming_of, held_point_of, IsReadyAs, IsPlannedAs, IsDeclinedAs};

use jcuts::{Held, Standing, Telling, standings_in, without_sink};
use jlog::{Flash, SessionFault};
use jnode::Order;
use jpacked::{NodeForms, PackingSession};
use jsteps::Op;
use std::alloc::Global;

/// How operations are planned: the flash that they would be written to, the forms of their nodes,
/// and what is told of them.
#[derive(Clone, Copy, Debug, PartialEq, Eq)]
pub struct StopsPlan {
    pub flash: Flash,
    pub forms: NodeForms,
    pub telling: Telling,
}

/// A log that is planned, and not written: what an operation puts is held until it is looked at.
pub(crate) type FormPlan<E> = PackingSession<E, Held>;

/// Plans one operation after those that were planned before: the forms that it would write, in
/// order.
///
/// # Errors
/// `Refused`, `Full` and `OutOfMemory` as a session answers them.
pub(crate) fn plan_op<E: Order>(
    alloc: Global,
    plan: &mut FormPlan<E>,
    op: &Op<'_>,
) -> Result<Vec<Standing>, SessionFault>
    requires { IsReadyAs plan.old }
    ensures forming { forming_of plan.new ≡ forming_of plan.old }
    ensures planned { IfOk result (λ told. IsPlannedAs (forming_of plan.old)
        (held_point_of plan.old) op.now (held_point_of plan.new) told.items) }
    ensures ready { OnOk result (IsReadyAs plan.new) }
    ensures declined { IfErr result
        (IsDeclinedAs (forming_of plan.old) (held_point_of plan.old) op.now) }
{
    op.known();
    let from = plan.cursor();
    let applied = match plan.apply(alloc, op) {
        Ok(applied) => applied,
        Err(fault) => return Err(without_sink(fault)),
    };
    let held = plan.replace_sink(Held::new(alloc));
    match standings_in::<E>(alloc, &held.bytes, from, &applied.places) {
        Ok(told) => Ok(told),
        Err(_) => Err(SessionFault::OutOfMemory),
    }
}
