//! What the making of an image comes to.
ghost use Rattle.std.specs.Prelude.{◌≡◌, string_bytes};
ghost use Rattle.jlog.specs.View.{flash_of_start, mount_of};
ghost use Rattle.jedge.specs.Acts.{seen_as};
ghost use Rattle.jmakes.specs.Seen.{done_seen, emission_seen, run_seen};
ghost use Rattle.jmakes.specs.Writing.{EndsAs, blocks_if_known, ending_of, ending_of_all, ending_of_run, plan_on, close_reason, refused_at, stopped_at, not_written};

use crate::emitting::ImageMade;
use crate::wanted::CloseFault;
use jbuild::{EmitFault, Emitted};
use jedge::fault::{FailedFile, Fault};
use jlog::{Place, RunReport, SessionFault, Start};
use jnode::Order;
use jreport::{Cause, Plan, ProgramFault, Reason, cause_of};
use std::alloc::AllocError;

/// So many operations were accepted, and their nodes have these places.
#[derive(Drop)]
pub struct DoneOps {
    pub accepted: usize,
    pub places: Vec<Place>,
}

/// The flash that is written, and the image on it.
pub fn plan_of<E: Order>(start: &Start<'_, '_, E>) -> Plan
    ensures { result ≡ plan_on (flash_of_start start.now) (mount_of start.now).image }
{
    let flash = start.flash();
    Plan {
        geometry: flash.geometry,
        blocks: flash.blocks,
        page: flash.page,
        length: start.mounted().image().len(),
    }
}

/// Why a file failed.
fn close_reason(closed: Result<(), CloseFault>) -> Reason
    ensures { result ≡ close_reason closed }
{
    match closed {
        Ok(()) => Reason::Other,
        Err(CloseFault::NotWritten(reason)) => reason,
        Err(CloseFault::NotNamed(reason)) => reason,
    }
}

/// The file was not written, for this reason.
fn not_written(line: Option<usize>, reason: Reason) -> ProgramFault<'static>
    ensures { result ≡ not_written line reason }
{
    ProgramFault::Session {
        fault: SessionFault::Sink,
        line,
        cause: Cause::Host(reason),
    }
}

/// What is known of blocks.
pub fn blocks_if_known(blocks: Result<Option<u32>, AllocError>) -> Option<u32>
    ensures { result ≡ blocks_if_known blocks }
{
    match blocks {
        Ok(blocks) => blocks,
        Err(_) => None,
    }
}

/// Why a run stopped where an operation was refused.
fn refused_at(
    plan: Plan,
    line: Option<usize>,
    fault: SessionFault,
    blocks: Option<u32>,
    closed: Result<(), CloseFault>,
) -> ProgramFault<'static>
    ensures { result ≡ refused_at plan line fault blocks closed }
{
    match closed {
        Ok(()) => ProgramFault::Session {
            fault,
            line,
            cause: cause_of(plan, fault, Reason::Other, blocks),
        },
        Err(CloseFault::NotWritten(reason)) => not_written(None, reason),
        Err(CloseFault::NotNamed(reason)) => not_written(None, reason),
    }
}

/// Why a run stopped.
fn stopped_at(
    plan: Plan,
    line: Option<usize>,
    fault: SessionFault,
    blocks: Option<u32>,
    closed: Result<(), CloseFault>,
) -> ProgramFault<'static>
    ensures { result ≡ stopped_at plan line fault blocks closed }
{
    match fault {
        SessionFault::Sink => not_written(line, close_reason(closed)),
        _ => refused_at(plan, line, fault, blocks, closed),
    }
}

/// What a run comes to that nothing stopped.
fn all_done(
    accepted: usize,
    places: Vec<Place>,
    closed: Result<(), CloseFault>,
    name: String,
) -> Result<DoneOps, Fault>
    ensures { EndsAs (string_bytes name) (ending_of_all accepted places.items closed)
        (seen_as done_seen result) }
{
    match closed {
        Ok(()) => Ok(DoneOps { accepted, places }),
        Err(CloseFault::NotWritten(reason)) => Err(Fault::Refused(not_written(None, reason))),
        Err(CloseFault::NotNamed(reason)) => Err(Fault::File(FailedFile { name, reason })),
    }
}

/// What a run comes to.
fn ended_run(
    plan: Plan,
    line: Option<usize>,
    emitted: Emitted,
    closed: Result<(), CloseFault>,
    name: String,
) -> Result<DoneOps, Fault>
    ensures { EndsAs (string_bytes name)
        (ending_of_run plan line (run_seen emitted) emitted.report.stopped closed)
        (seen_as done_seen result) }
{
    let Emitted { report, blocks } = emitted;
    let RunReport {
        accepted,
        places,
        stopped,
    } = report;
    match stopped {
        Some(fault) => Err(Fault::Refused(stopped_at(
            plan,
            line,
            fault,
            blocks_if_known(blocks),
            closed,
        ))),
        None => all_done(accepted, places, closed, name),
    }
}

/// What the making of an image comes to: its operations have the numbers of their lines, and its
/// file has this name.
pub fn ended(plan: Plan, numbers: &[usize], made: ImageMade, name: String) -> Result<DoneOps, Fault>
    ensures { EndsAs (string_bytes name)
        (ending_of plan numbers.now (emission_seen made.emitted) made.closed)
        (seen_as done_seen result) }
{
    let ImageMade { emitted, closed } = made;
    match emitted {
        Ok(emitted) => {
            let line = numbers.get(emitted.report.accepted).copied();
            ended_run(plan, line, emitted, closed, name)
        }
        Err(EmitFault::Sink) => Err(Fault::Refused(not_written(None, close_reason(closed)))),
        Err(EmitFault::OutOfMemory) => Err(Fault::Refused(ProgramFault::Session {
            fault: SessionFault::OutOfMemory,
            line: None,
            cause: Cause::Unknown,
        })),
    }
}
