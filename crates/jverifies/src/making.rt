//! The image that operations make on an empty flash, in memory.
ghost use Rattle.std.specs.Prelude.{◌≡◌, []};
ghost use Rattle.jmount.specs.Mounts.{IsMountOf};
ghost use Rattle.jlog.specs.View.{flash_of_start, mount_of, written_flash};
ghost use Rattle.jedge.specs.Acts.{seen_as};
ghost use Rattle.jmakes.specs.Seen.{emission_seen, numbered_seen, run_seen};
ghost use Rattle.jmakes.specs.Writing.{blocks_if_known, plan_on};
ghost use Rattle.jverifies.specs.Making.{EmitsInMemory, IsMadeInMemory, made_in_memory, made_of_run, makes_in_memory, makes_on, refused_in_memory, stopped_in_memory};

use jbuild::{EmitFault, Emitted, emit_from};
use jcuts::Held;
use jedge::fault::Fault;
use jedge::mounting::mounted;
use jlog::{Flash, RunReport, SessionFault, Start};
use jmakes::ending::{blocks_if_known, plan_of};
use jmakes::numbered::NumberedOps;
use jmakes::written::start_on;
use jmount::Mounted;
use jnode::Order;
use jreport::{Plan, ProgramFault, Reason, cause_of};
use jsteps::Op;
use std::alloc::Global;

/// Runs operations from where writing goes on, and has in memory what goes out.
fn emit_in_memory<E: Order>(
    alloc: Global,
    start: &Start<'_, '_, E>,
    ops: &[Op<'_>],
) -> (Vec<u8>, Result<Emitted, EmitFault>)
    ensures { EmitsInMemory (written_flash E.order (flash_of_start start.now))
        (mount_of start.now).image ops.now result.0.items (emission_seen result.1) }
{
    let held = Held::new(alloc);
    match emit_from(alloc, start, ops, held) {
        Ok((held, emitted)) => (held.bytes, Ok(emitted)),
        Err((fault, held)) => (held.bytes, Err(fault)),
    }
}

/// Why a run was refused at the operation of a line.
fn refused_in_memory(
    plan: Plan,
    line: Option<usize>,
    fault: SessionFault,
    blocks: Option<u32>,
) -> Fault
    ensures { result ≡ refused_in_memory plan line fault blocks }
{
    Fault::Refused(ProgramFault::Session {
        fault,
        line,
        cause: cause_of(plan, fault, Reason::Other, blocks),
    })
}

/// Why a run stopped. Its sink fails if memory runs out.
fn stopped_in_memory(
    plan: Plan,
    line: Option<usize>,
    fault: SessionFault,
    blocks: Option<u32>,
) -> Fault
    ensures { result ≡ stopped_in_memory plan line fault blocks }
{
    match fault {
        SessionFault::Sink => Fault::OutOfMemory,
        _ => refused_in_memory(plan, line, fault, blocks),
    }
}

/// What a run comes to that put out these bytes.
fn made_of_run(
    plan: Plan,
    line: Option<usize>,
    emitted: Emitted,
    bytes: Vec<u8>,
) -> Result<Vec<u8>, Fault>
    ensures { seen_as (λ made. made.items) result
        ≡ made_of_run plan line (run_seen emitted) bytes.items emitted.report.stopped }
{
    match emitted.report.stopped {
        Some(fault) => Err(stopped_in_memory(plan, line, fault, blocks_if_known(emitted.blocks))),
        None => Ok(bytes),
    }
}

/// What operations come to that put out these bytes, by the numbers of their lines.
fn made_in_memory(
    plan: Plan,
    numbers: &[usize],
    bytes: Vec<u8>,
    emitted: Result<Emitted, EmitFault>,
) -> Result<Vec<u8>, Fault>
    ensures { seen_as (λ made. made.items) result
        ≡ made_in_memory plan numbers.now bytes.items (emission_seen emitted) }
{
    match emitted {
        Ok(emitted) => {
            let line = numbers.get(emitted.report.accepted).copied();
            made_of_run(plan, line, emitted, bytes)
        }
        Err(_) => Err(Fault::OutOfMemory),
    }
}

/// The image that operations make behind a mounted one.
fn make_on<E: Order>(
    alloc: Global,
    mounted: &Mounted<'_>,
    flash: Flash,
    of: &NumberedOps<'_>,
) -> Result<Vec<u8>, Fault>
    requires { IsMountOf E.order flash.geometry.block mounted.now }
    ensures { makes_on E.order flash mounted.now (numbered_seen of.now) []
        (seen_as (λ made. made.items) result) }
{
    match start_on::<E>(mounted, flash) {
        Ok(start) => {
            let (bytes, emitted) = emit_in_memory::<E>(alloc, &start, &of.ops);
            made_in_memory(plan_of(&start), &of.numbers, bytes, emitted)
        }
        Err(fault) => Err(fault),
    }
}

/// The image that operations make on an empty flash.
pub fn make_in_memory<E: Order>(
    alloc: Global,
    flash: Flash,
    of: &NumberedOps<'_>,
) -> Result<Vec<u8>, Fault>
    ensures { makes_in_memory E.order flash (numbered_seen of.now) []
        (seen_as (λ made. made.items) result) }
{
    match mounted::<E>(alloc, &[], flash.geometry) {
        Ok(mounted) => make_on::<E>(alloc, &mounted, flash, of),
        Err(fault) => Err(fault),
    }
}
