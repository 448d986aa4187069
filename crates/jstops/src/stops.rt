//! What stands after a stop, told for operations that follow one another.

ghost use Rattle.std.specs.Prelude.{◌≡◌, IfOk, OnOk, IsOk, length};
ghost use Rattle.flashbase.specs.Sinks.{change_of};
ghost use Rattle.jlog.specs.Resuming.{resumes};
ghost use Rattle.jpacked.specs.View.{base_of_mount};
ghost use Rattle.jview.specs.Through.{IsMountThroughOf};
ghost use Rattle.jstops.specs.Planned.{forming_of, forming_with, held_point_of, through_point, IsReadyAs};
ghost use Rattle.jstops.specs.Stops.{TellsStop, TellsStops, PutsStops};

use crate::planned::{FormPlan, StopsPlan, plan_op};
use flashbase::Sink;
use jcuts::{Counts, CutsFault, Held, Telling, count_weak, put_end, put_nodes};
use jlog::SessionFault;
use jmount::Mounted;
use jnode::Order;
use jpacked::PackingSession;
use jsteps::Op;
use std::alloc::{AllocError, Global};

/// A log that goes on from an image mounted through its compression, and is not written.
fn plan_from<E: Order>(
    alloc: Global,
    mounted: &Mounted<'_>,
    on: StopsPlan,
) -> Result<FormPlan<E>, AllocError>
    requires { IsMountThroughOf E.order on.flash.geometry.block mounted.now }
    ensures ready { IfOk result IsReadyAs }
    ensures forming { IfOk result
        (λ plan. forming_of plan ≡ forming_with E.order on.forms on.flash) }
    ensures point { IfOk result (λ plan. held_point_of plan
        ≡ through_point E.order on.flash (base_of_mount mounted.now)) }
{
    let held = Held::new(alloc);
    match PackingSession::<E, Held>::resume(alloc, mounted, on.flash, on.forms, held) {
        Ok(plan) => Ok(plan),
        Err(_) => Err(AllocError),
    }
}

/// Plans one operation, and tells its forms.
#[tactic(none)]
fn tell_op<E: Order, T: Sink>(
    alloc: Global,
    plan: &mut FormPlan<E>,
    telling: Telling,
    line: usize,
    op: &Op<'_>,
    sink: &mut T,
) -> Result<Counts, CutsFault>
    requires { IsReadyAs plan.old }
    ensures forming { forming_of plan.new ≡ forming_of plan.old }
    ensures ready { OnOk result (IsReadyAs plan.new) }
    ensures tells { TellsStop (forming_of plan.old)
        (record { telling = telling; op = op.now; line = line }) (held_point_of plan.old)
        (held_point_of plan.new) (change_of T.Sink sink.old sink.new) result }
{
    let nodes = match plan_op(alloc, plan, op) {
        Ok(nodes) => nodes,
        Err(fault) => {
            return Err(CutsFault::Session {
                fault,
                line: Some(line),
                blocks: Ok(None),
            });
        }
    };
    match put_nodes(sink, telling, line, &nodes) {
        Ok(()) => Ok(Counts {
            nodes: nodes.len(),
            weak: count_weak(&nodes),
        }),
        Err(_) => Err(CutsFault::Output),
    }
}

/// Plans operations one after the other, and tells the forms of each. It stops at the first fault.
fn tell_ops<E: Order, T: Sink>(
    alloc: Global,
    plan: &mut FormPlan<E>,
    telling: Telling,
    ops: &[Op<'_>],
    lines: &[usize],
    sink: &mut T,
) -> Result<Counts, CutsFault>
    requires ready { IsReadyAs plan.old }
    requires numbered { length lines.now ≡ length ops.now }
    ensures { TellsStops (forming_of plan.old)
        (record { telling = telling; ops = ops.now; lines = lines.now }) (held_point_of plan.old)
        (held_point_of plan.new) (change_of T.Sink sink.old sink.new) result }
{
    let mut nodes = 0;
    let mut weak = 0;
    let mut accepted = 0;
    while accepted < ops.len() {
        match tell_op::<E, T>(alloc, plan, telling, lines[accepted], &ops[accepted], sink) {
            Ok(more) => {
                nodes += more.nodes;
                weak += more.weak;
                accepted += 1;
            }
            Err(fault) => return Err(fault),
        }
    }
    Ok(Counts { nodes, weak })
}

/// Plans operations as a [`PackingSession`] would write them that goes on from an image mounted
/// through its compression, and writes nothing of it: what is told of the forms of each one's nodes
/// goes out, and after the last of them the line on all. Answers how many forms are weak.
/// Operations have the numbers of their lines. It is in `E`'s order and of the geometry that the
/// image was mounted with, which is gone on from ([`jpacked::start_at`] judges that). At one time
/// the forms of one operation are held.
///
/// # Errors
/// `Session` without a line: out of memory, and nothing is told; with one as a session answers that
/// operation, and those before it are told. How many blocks it needs is told of none, since which
/// forms it would take is known only where they fit. `Output`: the sink failed, and took a
/// beginning.
#[tactic(none)]
pub fn put_stops<E: Order, T: Sink>(
    alloc: Global,
    mounted: &Mounted<'_>,
    on: StopsPlan,
    ops: &[Op<'_>],
    lines: &[usize],
    sink: &mut T,
) -> Result<usize, CutsFault>
    requires through { IsMountThroughOf E.order on.flash.geometry.block mounted.now }
    requires goes_on { IsOk (resumes E.order on.flash mounted.now) }
    requires numbered { length lines.now ≡ length ops.now }
    ensures { PutsStops (forming_with E.order on.forms on.flash)
        (record { telling = on.telling; ops = ops.now; lines = lines.now })
        (through_point E.order on.flash (base_of_mount mounted.now))
        (change_of T.Sink sink.old sink.new) result }
{
    let mut plan = match plan_from::<E>(alloc, mounted, on) {
        Ok(plan) => plan,
        Err(_) => {
            let fault = SessionFault::OutOfMemory;
            return Err(CutsFault::Session {
                fault,
                line: None,
                blocks: Ok(None),
            });
        }
    };
    let from = plan.cursor();
    let counts = match tell_ops::<E, T>(alloc, &mut plan, on.telling, ops, lines, sink) {
        Ok(counts) => counts,
        Err(stopped) => return Err(stopped),
    };
    let end = plan.cursor();
    match put_end(
        sink,
        on.telling,
        ops.len(),
        counts.nodes,
        from,
        end,
        counts.weak,
    ) {
        Ok(()) => Ok(counts.weak),
        Err(_) => Err(CutsFault::Output),
    }
}
