//! What goes out for a base and operations on it.

ghost use Rattle.std.specs.Prelude.{◌≡◌, ◌≢◌, ◌<◌, [], None, Err, IfOk, IfErr, OnOk, OnErr, IsOk, length};
ghost use Rattle.flashbase.specs.Sinks.{PutsTo, change_of};
ghost use Rattle.jmount.specs.Mounts.{IsMountOf};
ghost use Rattle.jlog.specs.Left.{front_of};
ghost use Rattle.jlog.specs.Resuming.{resumes_by};
ghost use Rattle.jlog.specs.View.{written_flash, mount_of, flash_of_start, flash_of_log, state_with};
ghost use Rattle.jbuild.specs.Blocks.{IsFull, TellsRefused, TellsRefusedOn};
ghost use Rattle.jbuild.specs.Emitting.{IsEmitted, IsNotEmitted, IsNotRun, paged_flash, session_fault};
ghost use Rattle.jbuild.specs.Length.{TellsLength};

use flashbase::{PutFault, Sink, put_all};
use jlog::{Flash, RunReport, Session, SessionFault, Start, put_erased};
use jmount::Mounted;
use jnode::Order;
use jscan::{Geometry, Page};
use jsteps::Op;
use std::alloc::{AllocError, Global};
use thiserror::Error;

/// What a run of operations on an image did.
#[derive(Drop)]
pub struct Emitted {
    pub report: RunReport,
    /// Where the run stopped at `Full`: the least number of blocks that hold the operation that was
    /// refused, and nothing where the greatest flash does not hold it. Nothing where it did not.
    pub blocks: Result<Option<u32>, AllocError>,
}

/// Why no operation was run.
#[derive(Clone, Copy, Debug, PartialEq, Eq, Error)]
pub enum EmitFault {
    /// The sink failed at the image's bytes.
    #[error("S4 Sink")]
    Sink,
    /// Out of memory, after all of them.
    #[error("S5 OutOfMemory")]
    OutOfMemory,
}

impl From<EmitFault> for SessionFault {
    ghost from_gives = { λ given fault. fault ≡ session_fault given };

    fn from(fault: EmitFault) -> SessionFault {
        match fault {
            EmitFault::Sink => SessionFault::Sink,
            EmitFault::OutOfMemory => SessionFault::OutOfMemory,
        }
    }
}

/// Puts a base's bytes up to an address, and erased flash for those that it lacks.
fn put_front<S: Sink>(sink: &mut S, base: &[u8], from: usize) -> Result<(), PutFault>
    ensures { PutsTo S.Sink sink.old sink.new (front_of base.now from) result }
{
    if from <= base.len() {
        return put_all(sink, &base[..from]);
    }
    put_all(sink, base)?;
    put_erased(sink, from - base.len())
}

/// The least number of blocks that hold the operation at which a run stopped for want of room, if
/// it did and they can.
fn blocks_for_refused<E: Order, S: Sink>(
    alloc: Global,
    session: &Session<'_, E, S>,
    ops: &[Op<'_>],
    report: &RunReport,
) -> Result<Option<u32>, AllocError>
    requires { report.now.stopped ≢ None → report.now.accepted < length ops.now }
    ensures blocks { IfOk result (TellsRefused (flash_of_log session.now)
        (state_with session.now []) ops.now report.now.accepted report.now.stopped) }
    ensures memory { OnErr result (IsFull report.now.stopped) }
{
    match report.stopped {
        Some(SessionFault::Full { .. }) => {
            match session.blocks_for(alloc, &ops[report.accepted]) {
                Ok(blocks) => Ok(blocks),
                Err(_) => Err(AllocError),
            }
        }
        _ => Ok(None),
    }
}

/// Puts a mounted image's bytes up to where writing goes on, erased flash for those that it lacks,
/// and then runs operations on it. Answers the sink, what the run did, and how many blocks would
/// hold an operation that was refused for want of room.
///
/// # Errors
/// Nothing was run, and the sink is handed back.
pub fn emit_from<E: Order, S: Sink>(
    alloc: Global,
    start: &Start<'_, '_, E>,
    ops: &[Op<'_>],
    mut sink: S,
) -> Result<(S, Emitted), (EmitFault, S)>
    ensures emitted { IfOk result (λ done. IsEmitted
        (written_flash E.order (flash_of_start start.now)) (mount_of start.now).image ops.now
        done.1.report.accepted done.1.report.places.items done.1.report.stopped
        (change_of S.Sink sink done.0)) }
    // The places end where what went out for all operations does.
    ensures long { IfOk result (λ done. done.1.report.stopped ≡ None
        → TellsLength (written_flash E.order (flash_of_start start.now)) (mount_of start.now).image
        ops.now done.1.report.accepted done.1.report.places.items) }
    // What would hold the operation that was refused for want of room, from where the run ended.
    ensures blocks { IfOk result (λ done. IfOk done.1.blocks (TellsRefusedOn
        (written_flash E.order (flash_of_start start.now)) (mount_of start.now).image ops.now
        done.1.report.accepted done.1.report.stopped)) }
    ensures memory { IfOk result
        (λ done. OnErr done.1.blocks (IsFull done.1.report.stopped)) }
    ensures refused { IfErr result (λ refused. IsNotRun
        (written_flash E.order (flash_of_start start.now)) (mount_of start.now).image
        (change_of S.Sink sink refused.1) refused.0) }
{
    let from = start.address();
    if put_front(&mut sink, start.mounted().image(), from as usize).is_err() {
        return Err((EmitFault::Sink, sink));
    }
    let mut session = match Session::<E, S>::begin(alloc, start, sink) {
        Ok(session) => session,
        Err((_, sink)) => return Err((EmitFault::OutOfMemory, sink)),
    };
    let report = session.run(alloc, ops);
    let blocks = blocks_for_refused(alloc, &session, ops, &report);
    Ok((session.finish(), Emitted { report, blocks }))
}

/// As [`emit_from`] from where a log goes on in a mounted image, with bytes cut where a page of
/// this size of a file ends. It is in `E`'s order and of the geometry that the image was mounted
/// with.
///
/// # Errors
/// Nothing was run, and the sink is handed back. `ReadOnly` and `Geometry` as [`Start::of`] answers
/// them: the sink is as it was. `Sink`: it failed at the image's bytes. Out of memory: after all of
/// them.
pub fn emit<E: Order, S: Sink>(
    alloc: Global,
    mounted: &Mounted<'_>,
    geometry: Geometry,
    blocks: u32,
    page: Page,
    ops: &[Op<'_>],
    sink: S,
) -> Result<(S, Emitted), (SessionFault, S)>
    requires { IsMountOf E.order geometry.block mounted.now }
    ensures resumes { OnOk result
        (IsOk (resumes_by page E.order geometry.block blocks mounted.now)) }
    ensures emitted { IfOk result (λ done. IsEmitted
        (paged_flash page E.order geometry.block blocks) mounted.now.image ops.now
        done.1.report.accepted done.1.report.places.items done.1.report.stopped
        (change_of S.Sink sink done.0)) }
    // The places end where what went out for all operations does.
    ensures long { IfOk result (λ done. done.1.report.stopped ≡ None
        → TellsLength (paged_flash page E.order geometry.block blocks) mounted.now.image ops.now
        done.1.report.accepted done.1.report.places.items) }
    // What would hold the operation that was refused for want of room, from where the run ended.
    ensures blocks { IfOk result (λ done. IfOk done.1.blocks (TellsRefusedOn
        (paged_flash page E.order geometry.block blocks) mounted.now.image ops.now
        done.1.report.accepted done.1.report.stopped)) }
    ensures memory { IfOk result
        (λ done. OnErr done.1.blocks (IsFull done.1.report.stopped)) }
    ensures refused { IfErr result (λ refused. IsNotEmitted page E.order geometry.block blocks
        mounted.now
        (change_of S.Sink sink refused.1)
        refused.0) }
    // An image that is not gone on from is refused before a byte is put.
    ensures untouched { IfErr result (λ refused.
        resumes_by page E.order geometry.block blocks mounted.now ≡ Err refused.0
        → refused.1 ≡ sink) }
{
    let flash = Flash {
        geometry,
        blocks,
        page,
    };
    let start = match Start::<E>::of(mounted, flash) {
        Ok(start) => start,
        Err(fault) => return Err((fault, sink)),
    };
    match emit_from(alloc, &start, ops, sink) {
        Ok(done) => Ok(done),
        Err((fault, sink)) => Err((SessionFault::from(fault), sink)),
    }
}
