//! Operations run onto an image, packed or not. What may fail while a mounted image or a session lives is a
//! call of its own: each `?` proves anew that all that lives is dropped.

ghost use Rattle.jview.specs.Through.{IsMountThroughOf};

use jlog::{Flash, RunReport, SessionFault};
use jmount::Mounted;
use jnode::Order;
use jpacked::{NodeForms, PackingSession};
use jsteps::Op;
use jthrough::mount_through;
use std::alloc::Global;
use std::test::Fail;
use test_support::Taker;

/// What a run put, where that begins, how often its sink failed, and what it reported.
#[derive(Drop)]
pub struct Outcome {
    pub from: u32,
    pub output: Vec<u8>,
    pub failures: u64,
    pub report: RunReport,
}

/// Runs operations in a session, and ends it.
pub fn run_out<E: Order>(
    alloc: Global,
    mut session: PackingSession<E, Taker>,
    ops: &[Op<'_>],
) -> Outcome {
    let from = session.cursor();
    let report = session.run(alloc, ops);
    let sink = session.finish();
    Outcome {
        from,
        output: sink.bytes,
        failures: sink.failures,
        report,
    }
}

/// A session on a mounted image.
pub fn session_on<E: Order>(
    alloc: Global,
    mounted: &Mounted<'_>,
    flash: Flash,
    forms: NodeForms,
    sink: Taker,
) -> Result<PackingSession<E, Taker>, SessionFault>
    requires { IsMountThroughOf E.order flash.geometry.block mounted.now }
{
    match PackingSession::<E, Taker>::resume(alloc, mounted, flash, forms, sink) {
        Ok(session) => Ok(session),
        Err((fault, _)) => Err(fault),
    }
}

fn run_on<E: Order>(
    alloc: Global,
    mounted: &Mounted<'_>,
    flash: Flash,
    forms: NodeForms,
    ops: &[Op<'_>],
) -> Result<Outcome, Fail>
    requires { IsMountThroughOf E.order flash.geometry.block mounted.now }
{
    let session = session_on::<E>(alloc, mounted, flash, forms, Taker::new(alloc))?;
    Ok(run_out::<E>(alloc, session, ops))
}

/// Runs operations onto an image, in these forms.
pub fn run_in<E: Order>(
    alloc: Global,
    image: &[u8],
    flash: Flash,
    forms: NodeForms,
    ops: &[Op<'_>],
) -> Result<Outcome, Fail> {
    let mut contents = Vec::new(alloc);
    let mounted = mount_through::<E>(alloc, image, flash.geometry, &mut contents)?;
    run_on::<E>(alloc, &mounted, flash, forms, ops)
}
