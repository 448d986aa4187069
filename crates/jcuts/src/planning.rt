//! Planning one operation: what it would write, and where.

ghost use Rattle.std.specs.Prelude.{◌≡◌, IsFalse, OnOk, IfOk, IfErr, []};
ghost use Rattle.jscan.specs.Pages.{page_size};
ghost use Rattle.jlog.specs.Session.{Declines};
ghost use Rattle.jlog.specs.View.{base_of, block_size_of, blocks_of, page_of, flash_of_log, cursor_of, index_of_log, is_broken, sink_of};
ghost use Rattle.jcuts.specs.Planning.{CanPlan, IfFull, IsPlannedOp, without_sink};

use crate::held::Held;
use crate::standing::{Standing, standings_in};
use jlog::{Session, SessionFault};
use jnode::Order;
use jsteps::Op;
use std::alloc::Global;

/// A log that is planned, and not written: what an operation puts is held until it is looked at.
pub(crate) type Plan<'a, E> = Session<'a, E, Held>;

/// A fault of a log whose sink keeps what it takes: where that fails, memory is wanting.
pub fn without_sink(fault: SessionFault) -> SessionFault
    ensures { result ≡ without_sink fault }
{
    match fault {
        SessionFault::Sink => SessionFault::OutOfMemory,
        fault => fault,
    }
}

/// Plans one operation after those that were planned before: the nodes that it would write, in
/// order.
///
/// # Errors
/// `Refused`, `Full` and `OutOfMemory` as a session answers them. After `Full` the log is as it was;
/// after another fault it is not used again.
pub(crate) fn plan_op<E: Order>(
    alloc: Global,
    plan: &mut Plan<'_, E>,
    op: &Op<'_>,
) -> Result<Vec<Standing>, SessionFault>
    requires whole { IsFalse (is_broken plan.old) }
    requires can { CanPlan (page_size (page_of plan.old)) (block_size_of plan.old)
        (blocks_of plan.old) (cursor_of plan.old) (index_of_log plan.old) }
    requires none { (sink_of plan.old).bytes.items ≡ [] }
    ensures base { base_of plan.new ≡ base_of plan.old }
    ensures block { block_size_of plan.new ≡ block_size_of plan.old }
    ensures blocks { blocks_of plan.new ≡ blocks_of plan.old }
    ensures page { page_of plan.new ≡ page_of plan.old }
    ensures planned { IfOk result (λ told. IsPlannedOp (flash_of_log plan.old)
        (cursor_of plan.old) (index_of_log plan.old) op.now (cursor_of plan.new)
        (index_of_log plan.new) told.items) }
    ensures whole { OnOk result (IsFalse (is_broken plan.new)) }
    ensures can { OnOk result (CanPlan (page_size (page_of plan.new)) (block_size_of plan.new)
        (blocks_of plan.new) (cursor_of plan.new) (index_of_log plan.new)) }
    ensures none { OnOk result ((sink_of plan.new).bytes.items ≡ []) }
    ensures stays { IfErr result (λ fault. IfFull fault ((cursor_of plan.new ≡ cursor_of plan.old)
        × (index_of_log plan.new ≡ index_of_log plan.old))) }
    ensures declined { IfErr result (λ fault. Declines (page_size (page_of plan.old)) E.order
        (block_size_of plan.old) (blocks_of plan.old)
        (cursor_of plan.old) (index_of_log plan.old) op.now fault) }
{
    op.known();
    let from = plan.cursor();
    let applied = match plan.apply(alloc, op) {
        Ok(applied) => applied,
        Err(fault) => return Err(without_sink(fault)),
    };
    let held = plan.replace_sink(Held::new(alloc));
    let told = standings_in::<E>(alloc, &held.bytes, from, &applied.places)?;
    Ok(told)
}
