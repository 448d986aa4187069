//! What stands after a stop, told for operations that follow one another.

ghost use Rattle.std.specs.Prelude.{◌≡◌, IfOk, OnOk, length};
ghost use Rattle.jlog.specs.View.{mount_of, flash_of_start};
ghost use Rattle.jcuts.specs.Lines.{weak_count};
ghost use Rattle.jcuts.specs.Cuts.{base_point, flash_of, point_of, IsReady, TellsLeast, TellsOp, TellsOps, PutsCuts};
ghost use Rattle.flashbase.specs.Sinks.{change_of};

use crate::held::Held;
use crate::lines::{Telling, put_end, put_nodes};
use crate::planning::{Plan, plan_op};
use crate::standing::Standing;
use flashbase::Sink;
use jlog::{Session, SessionFault, Start};
use jnode::Order;
use jsteps::Op;
use std::alloc::{AllocError, Global};

/// How many nodes are told, and how many of them are weak.
#[derive(Clone, Copy, Debug, PartialEq, Eq)]
pub struct Counts {
    pub nodes: usize,
    pub weak: usize,
}

/// Why not all is told.
#[derive(Clone, Copy, Debug, PartialEq, Eq)]
pub enum CutsFault {
    /// The fault of a session: before any operation, or at the one whose line has this number. At
    /// `Full`, the least number of blocks that hold this one and those before it, and nothing where
    /// the greatest flash does not; nothing at another fault.
    Session {
        fault: SessionFault,
        line: Option<usize>,
        blocks: Result<Option<u32>, AllocError>,
    },
    /// The sink failed.
    Output,
}

/// How many of these nodes are weak.
pub fn count_weak(nodes: &[Standing]) -> usize
    ensures { result ≡ weak_count nodes.now }
{
    nodes
        .iter()
        .filter(|standing| standing.weak.is_some())
        .count()
}

/// A log that goes on from a mounted image, and is not written.
#[tactic(none)]
fn plan_from<'a, E: Order>(
    alloc: Global,
    start: &Start<'_, 'a, E>,
) -> Result<Plan<'a, E>, AllocError>
    ensures ready { IfOk result IsReady }
    ensures flash { IfOk result (λ plan. flash_of plan ≡ flash_of_start start.now) }
    ensures point { IfOk result (λ plan. point_of plan
        ≡ base_point E.order (flash_of_start start.now) (mount_of start.now).image) }
{
    let held = Held::new(alloc);
    match Session::<E, Held>::begin(alloc, start, held) {
        Ok(plan) => Ok(plan),
        Err((error, _)) => Err(error),
    }
}

/// The least number of blocks that hold an operation for which a log lacked room, if any do.
fn least_for<E: Order>(
    alloc: Global,
    plan: &Plan<'_, E>,
    op: &Op<'_>,
    fault: SessionFault,
) -> Result<Option<u32>, AllocError>
    ensures { TellsLeast E.order (flash_of plan.now) (point_of plan.now) op.now fault result }
{
    match fault {
        SessionFault::Full { .. } => match plan.blocks_for(alloc, op) {
            Ok(blocks) => Ok(blocks),
            Err(_) => Err(AllocError),
        },
        _ => Ok(None),
    }
}

/// Plans one operation, and tells its nodes.
#[tactic(none)]
fn tell_op<E: Order, T: Sink>(
    alloc: Global,
    plan: &mut Plan<'_, E>,
    telling: Telling,
    line: usize,
    op: &Op<'_>,
    sink: &mut T,
) -> Result<Counts, CutsFault>
    requires { IsReady plan.old }
    ensures flash { flash_of plan.new ≡ flash_of plan.old }
    ensures ready { OnOk result (IsReady plan.new) }
    ensures tells { TellsOp E.order (flash_of plan.old)
        (record { telling = telling; op = op.now; line = line }) (point_of plan.old)
        (point_of plan.new) (change_of T.Sink sink.old sink.new) result }
{
    let nodes = match plan_op(alloc, plan, op) {
        Ok(nodes) => nodes,
        Err(fault) => {
            return Err(CutsFault::Session {
                fault,
                line: Some(line),
                blocks: least_for(alloc, plan, op, fault),
            });
        }
    };
    match put_nodes(sink, telling, line, &nodes) {
        Ok(()) => Ok(Counts {
            nodes: nodes.len(),
            weak: count_weak(&nodes),
        }),
        Err(_) => Err(CutsFault::Output),
    }
}

/// Plans operations one after the other, and tells the nodes of each. It stops at the first fault.
fn tell_ops<E: Order, T: Sink>(
    alloc: Global,
    plan: &mut Plan<'_, E>,
    telling: Telling,
    ops: &[Op<'_>],
    lines: &[usize],
    sink: &mut T,
) -> Result<Counts, CutsFault>
    requires ready { IsReady plan.old }
    requires numbered { length lines.now ≡ length ops.now }
    ensures { TellsOps E.order (flash_of plan.old)
        (record { telling = telling; ops = ops.now; lines = lines.now }) (point_of plan.old)
        (point_of plan.new) (change_of T.Sink sink.old sink.new) result }
{
    let mut nodes = 0;
    let mut weak = 0;
    let mut accepted = 0;
    while accepted < ops.len() {
        match tell_op::<E, T>(alloc, plan, telling, lines[accepted], &ops[accepted], sink) {
            Ok(more) => {
                nodes += more.nodes;
                weak += more.weak;
                accepted += 1;
            }
            Err(fault) => return Err(fault),
        }
    }
    Ok(Counts { nodes, weak })
}

/// Plans operations on a mounted image as [`jlog::Session::run`] would write them, and writes
/// nothing of it: what is told of each one's nodes goes out, and after the last of them the line on
/// all. Answers how many nodes are weak. Operations have the numbers of their lines. At one time
/// the nodes of one operation are held.
///
/// # Errors
/// `Session` without a line: out of memory, and nothing is told; with one as a session answers that
/// operation, with the least number of blocks where it is `Full`, and those before it are told.
/// `Output`: the sink failed, and took a beginning.
#[tactic(none)]
pub fn put_cuts<E: Order, T: Sink>(
    alloc: Global,
    start: &Start<'_, '_, E>,
    telling: Telling,
    ops: &[Op<'_>],
    lines: &[usize],
    sink: &mut T,
) -> Result<usize, CutsFault>
    requires { length lines.now ≡ length ops.now }
    ensures { PutsCuts E.order (flash_of_start start.now) (mount_of start.now).image
        (record { telling = telling; ops = ops.now; lines = lines.now })
        (change_of T.Sink sink.old sink.new) result }
{
    let mut plan = match plan_from::<E>(alloc, start) {
        Ok(plan) => plan,
        Err(_) => {
            let fault = SessionFault::OutOfMemory;
            return Err(CutsFault::Session {
                fault,
                line: None,
                blocks: Ok(None),
            });
        }
    };
    let from = plan.cursor();
    let counts = match tell_ops::<E, T>(alloc, &mut plan, telling, ops, lines, sink) {
        Ok(counts) => counts,
        Err(stopped) => return Err(stopped),
    };
    let end = plan.cursor();
    match put_end(
        sink,
        telling,
        ops.len(),
        counts.nodes,
        from,
        end,
        counts.weak,
    ) {
        Ok(()) => Ok(counts.weak),
        Err(_) => Err(CutsFault::Output),
    }
}
