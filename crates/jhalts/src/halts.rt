//! What stands after a stop of `update`, told for operations that follow one another.

ghost use Rattle.std.specs.Prelude.{◌≡◌, IfOk, OnOk, IsOk, length, not};
ghost use Rattle.flashbase.specs.Sinks.{change_of};
ghost use Rattle.jlog.specs.Resuming.{resumes};
ghost use Rattle.jcuts.specs.declared.lines.Telling.TheVariants.{Nodes};
ghost use Rattle.jview.specs.Through.{IsMountThroughOf};
ghost use Rattle.jpacked.specs.Forms.{is_packed};
ghost use Rattle.jhalts.specs.InRow.{device_point, forming_in_row, forming_on, row_point_of, IsFreshIn, IsReadyIn};
ghost use Rattle.jhalts.specs.Halts.{TellsHalt, TellsHalts, PutsHalts};

use crate::planned::{RowPlan, plan_op};
use crate::walking::{Walk, address_of, at_opening};
use flashbase::Sink;
use jcuts::{Counts, CutsFault, Held, Telling, count_weak, put_end, put_nodes};
use jdevice::{DevicePlan, openings_taken};
use jlog::{Blocks, Flash, SessionFault};
use jmount::Mounted;
use jnode::Order;
use jpacked::NodeForms;
use jsteps::Op;
use jupdate::OpeningSession;
use std::alloc::{AllocError, Global};

/// The forms in which new nodes are told.
fn forms_of(plain: bool) -> NodeForms
    ensures { is_packed result ≡ not plain }
{
    if plain {
        NodeForms::Own
    } else {
        NodeForms::Packed
    }
}

/// A log that goes on in the openings of a mounted image, and is not written.
fn plan_from<E: Order>(
    alloc: Global,
    mounted: &Mounted<'_>,
    on: DevicePlan,
) -> Result<RowPlan<E>, AllocError>
    requires through { IsMountThroughOf E.order on.flash.geometry.block mounted.now }
    requires goes_on { IsOk (resumes E.order on.flash mounted.now) }
    ensures fresh { IfOk result (IsFreshIn on.flash) }
    ensures forming { IfOk result (λ plan. forming_in_row plan ≡ forming_on E.order on) }
    ensures point { IfOk result
        (λ plan. row_point_of plan ≡ device_point E.order on mounted.now.image) }
{
    let Flash {
        geometry,
        blocks,
        ..
    } = on.flash;
    let row = openings_taken::<E>(alloc, mounted.image(), geometry, blocks, on.tail)?;
    let forms = forms_of(on.plain);
    let held = Held::new(alloc);
    match OpeningSession::<E, Held>::resume(alloc, mounted, on.flash, row, forms, held) {
        Ok(plan) => Ok(plan),
        Err((_, _)) => Err(AllocError),
    }
}

/// Plans one operation, and tells its forms.
#[tactic(none)]
fn tell_op<E: Order, T: Sink>(
    alloc: Global,
    plan: &mut RowPlan<E>,
    walk: &mut Walk,
    line: usize,
    op: &Op<'_>,
    sink: &mut T,
) -> Result<Counts, CutsFault>
    requires { IsReadyIn plan.old walk.old }
    ensures forming { forming_in_row plan.new ≡ forming_in_row plan.old }
    ensures ready { OnOk result (IsReadyIn plan.new walk.new) }
    ensures tells { TellsHalt (forming_in_row plan.old)
        (record { telling = Nodes; op = op.now; line = line }) (row_point_of plan.old)
        (row_point_of plan.new) (change_of T.Sink sink.old sink.new) result }
{
    let nodes = match plan_op(alloc, plan, walk, op) {
        Ok(nodes) => nodes,
        Err(fault) => {
            return Err(CutsFault::Session {
                fault,
                line: Some(line),
                blocks: Ok(None),
            });
        }
    };
    match put_nodes(sink, Telling::Nodes, line, &nodes) {
        Ok(()) => Ok(Counts {
            nodes: nodes.len(),
            weak: count_weak(&nodes),
        }),
        Err(_) => Err(CutsFault::Output),
    }
}

/// Plans operations one after the other, and tells the forms of each. It stops at the first fault.
fn tell_ops<E: Order, T: Sink>(
    alloc: Global,
    plan: &mut RowPlan<E>,
    walk: &mut Walk,
    ops: &[Op<'_>],
    lines: &[usize],
    sink: &mut T,
) -> Result<Counts, CutsFault>
    requires ready { IsReadyIn plan.old walk.old }
    requires numbered { length lines.now ≡ length ops.now }
    ensures forming { forming_in_row plan.new ≡ forming_in_row plan.old }
    ensures ready { OnOk result (IsReadyIn plan.new walk.new) }
    ensures tells { TellsHalts (forming_in_row plan.old)
        (record { telling = Nodes; ops = ops.now; lines = lines.now }) (row_point_of plan.old)
        (row_point_of plan.new) (change_of T.Sink sink.old sink.new) result }
{
    let mut nodes = 0;
    let mut weak = 0;
    let mut accepted = 0;
    while accepted < ops.len() {
        match tell_op::<E, T>(alloc, plan, walk, lines[accepted], &ops[accepted], sink) {
            Ok(more) => {
                nodes += more.nodes;
                weak += more.weak;
                accepted += 1;
            }
            Err(fault) => return Err(fault),
        }
    }
    Ok(Counts { nodes, weak })
}

/// Plans operations as `update` would write them into the openings of an image mounted through its
/// compression, and writes nothing of it: what is told of the forms of each one's nodes goes out,
/// with the addresses in the image, and after the last of them the line on all: from where the
/// first opening goes on to where writing would go on. Answers how many forms are weak. Operations
/// have the numbers of their lines. It is in `E`'s order and of the geometry that the image was
/// mounted with, which is gone on from ([`jpacked::start_at`] judges that). At one time the forms
/// of one operation are held.
///
/// # Errors
/// `Session` without a line: out of memory, and nothing is told; with one as a session answers that
/// operation, and those before it are told. How many blocks it needs is told of none. `Output`: the
/// sink failed, and took a beginning.
#[tactic(none)]
pub fn put_halts<E: Order, T: Sink>(
    alloc: Global,
    mounted: &Mounted<'_>,
    on: DevicePlan,
    ops: &[Op<'_>],
    lines: &[usize],
    sink: &mut T,
) -> Result<usize, CutsFault>
    requires through { IsMountThroughOf E.order on.flash.geometry.block mounted.now }
    requires goes_on { IsOk (resumes E.order on.flash mounted.now) }
    requires numbered { length lines.now ≡ length ops.now }
    ensures { PutsHalts (forming_on E.order on)
        (record { telling = Nodes; ops = ops.now; lines = lines.now })
        (device_point E.order on mounted.now.image)
        (change_of T.Sink sink.old sink.new) result }
{
    let mut plan = match plan_from::<E>(alloc, mounted, on) {
        Ok(plan) => plan,
        Err(_) => {
            let fault = SessionFault::OutOfMemory;
            return Err(CutsFault::Session {
                fault,
                line: None,
                blocks: Ok(None),
            });
        }
    };
    let flash = Blocks {
        size: on.flash.geometry.block,
        count: on.flash.blocks,
    };
    let mut walk = at_opening(flash, plan.stretches(), 0);
    let from = address_of(plan.stretches(), walk);
    let counts = match tell_ops::<E, T>(alloc, &mut plan, &mut walk, ops, lines, sink) {
        Ok(counts) => counts,
        Err(stopped) => return Err(stopped),
    };
    let end = address_of(plan.stretches(), walk);
    match put_end(
        sink,
        Telling::Nodes,
        ops.len(),
        counts.nodes,
        from,
        end,
        counts.weak,
    ) {
        Ok(()) => Ok(counts.weak),
        Err(_) => Err(CutsFault::Output),
    }
}
