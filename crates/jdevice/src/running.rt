//! Operations run in the openings of an image, in memory.

ghost use Rattle.std.specs.Prelude.{◌≡◌, not, [], Some, IfOk, IsOk};
ghost use Rattle.jlog.specs.Resuming.{resumes};
ghost use Rattle.jpacked.specs.Forms.{is_packed};
ghost use Rattle.jupdate.specs.View.{IsBegunIn, packs_of, sink_of};
ghost use Rattle.jview.specs.Through.{IsMountThroughOf};
ghost use Rattle.jdevice.specs.Run.{IsDeviceRun, device_done, openings_planned, stops_at_op};

use crate::taken::openings_taken;
use flashbase::{FromWriter, Sink};
use jlog::{Flash, RunReport, SessionFault};
use jmount::Mounted;
use jnode::Order;
use jopenings::Stretch;
use jpacked::NodeForms;
use jsteps::Op;
use jupdate::OpeningSession;
use std::alloc::{AllocError, Global};

/// The flash of a device, and how it is written: with `plain` nodes are not compressed, with `tail`
/// they go into the rests of begun blocks too.
#[derive(Clone, Copy, Debug, PartialEq, Eq)]
pub struct DevicePlan {
    pub flash: Flash,
    pub plain: bool,
    pub tail: bool,
}

/// What a run did.
#[derive(Drop)]
pub struct DeviceRun {
    pub report: RunReport,
    /// How many bytes went out to each opening.
    pub stretches: Vec<Stretch>,
    /// These bytes, one opening after the other.
    pub bytes: Vec<u8>,
}

/// The forms in which new nodes go out.
fn forms_of(plain: bool) -> NodeForms
    ensures { is_packed result ≡ not plain }
{
    if plain {
        NodeForms::Own
    } else {
        NodeForms::Packed
    }
}

/// Whether a run went to its end, or to an operation that is refused or has no room: where it did
/// not, memory ran out.
fn stops_at_op(stopped: Option<SessionFault>) -> bool
    ensures { result ≡ stops_at_op stopped }
{
    match stopped {
        None => true,
        Some(SessionFault::Refused(_) | SessionFault::Full { .. }) => true,
        Some(_) => false,
    }
}

/// Runs operations in a session that began in the openings that are taken.
fn run_in_session<E: Order>(
    alloc: Global,
    mounted: &Mounted<'_>,
    on: DevicePlan,
    mut session: OpeningSession<E, FromWriter<Vec<u8>>>,
    ops: &[Op<'_>],
) -> Result<DeviceRun, AllocError>
    requires begun { IsBegunIn mounted.now on.flash
        (openings_planned E.order on mounted.now.image) (sink_of session) session }
    requires packs { packs_of session ≡ not on.plain }
    requires sink { ⟦<FromWriter<Vec<u8>> as Sink>⟧.taken (sink_of session) ≡ Some [] }
    requires none_failed { ⟦<FromWriter<Vec<u8>> as Sink>⟧.failures (sink_of session) ≡ 0 }
    ensures { IfOk result
        (λ run. IsDeviceRun E.order on mounted.now.image ops.now (device_done run)) }
{
    let report = session.run(alloc, ops);
    if !stops_at_op(report.stopped) {
        return Err(AllocError);
    }
    let stretches = session.stretches().to_vec(alloc)?;
    let bytes = session.finish().into_writer();
    Ok(DeviceRun {
        report,
        stretches,
        bytes,
    })
}

/// Runs operations in the openings of a mounted image that is gone on from, and holds what goes out
/// for them. It ends where memory runs out.
pub fn run_on_device<E: Order>(
    alloc: Global,
    mounted: &Mounted<'_>,
    on: DevicePlan,
    ops: &[Op<'_>],
) -> Result<DeviceRun, AllocError>
    requires through { IsMountThroughOf E.order on.flash.geometry.block mounted.now }
    requires goes_on { IsOk (resumes E.order on.flash mounted.now) }
    ensures { IfOk result
        (λ run. IsDeviceRun E.order on mounted.now.image ops.now (device_done run)) }
{
    let Flash {
        geometry,
        blocks,
        ..
    } = on.flash;
    let row = openings_taken::<E>(alloc, mounted.image(), geometry, blocks, on.tail)?;
    let forms = forms_of(on.plain);
    let sink = FromWriter::new(Vec::new(alloc));
    match OpeningSession::<E, FromWriter<Vec<u8>>>::resume(
        alloc, mounted, on.flash, row, forms, sink,
    ) {
        Ok(session) => run_in_session::<E>(alloc, mounted, on, session, ops),
        Err((_, _)) => Err(AllocError),
    }
}
