//! Operations run onto an image. What may fail while a mounted image or a session lives is a call
//! of its own: each `?` proves anew that all that lives is dropped.

ghost use Rattle.jmount.specs.Mounts.{IsMountOf};

use jlog::{Flash, Place, RunReport, Session, SessionFault};
use jmount::{Mounted, mount};
use jnode::Order;
use jsteps::Op;
use std::alloc::Global;
use std::test::Fail;
use test_support::Taker;

/// What a run put, and what it reported.
#[derive(Drop)]
pub struct Outcome {
    pub output: Vec<u8>,
    pub report: RunReport,
}

/// Runs operations in a session.
fn run_in<E: Order>(
    alloc: Global,
    image: &[u8],
    mut session: Session<'_, E, Taker>,
    ops: &[Op<'_>],
) -> Result<Outcome, Fail> {
    let report = session.run(alloc, ops);
    let is_kept = session.base() == image;
    let output = session.finish().bytes;
    if is_kept {
        Ok(Outcome { output, report })
    } else {
        Err(Fail::from("another base"))
    }
}

/// A session on a mounted image that keeps what it puts.
fn session_on<'a, E: Order>(
    alloc: Global,
    mounted: &Mounted<'a>,
    flash: Flash,
) -> Result<Session<'a, E, Taker>, SessionFault>
    requires { IsMountOf E.order flash.geometry.block mounted.now }
{
    let Flash {
        geometry,
        blocks,
        page,
    } = flash;
    Session::<E, _>::resume_paged(alloc, mounted, geometry, blocks, page, Taker::new(alloc))
}

fn run_on<E: Order>(
    alloc: Global,
    mounted: &Mounted<'_>,
    flash: Flash,
    ops: &[Op<'_>],
) -> Result<Outcome, Fail>
    requires { IsMountOf E.order flash.geometry.block mounted.now }
{
    let session = session_on::<E>(alloc, mounted, flash)?;
    run_in::<E>(alloc, mounted.image(), session, ops)
}

/// Runs operations onto an image, by pages.
pub fn run_paged<E: Order>(
    alloc: Global,
    image: &[u8],
    flash: Flash,
    ops: &[Op<'_>],
) -> Result<Outcome, Fail> {
    let mounted = mount::<E>(alloc, image, flash.geometry)?;
    run_on::<E>(alloc, &mounted, flash, ops)
}

/// Adds what a later call did.
fn add(report: &mut RunReport, accepted: usize, places: &[Place]) -> Result<(), Fail> {
    report.places.extend_from_slice(places)?;
    report.accepted = report.accepted.saturating_add(accepted);
    Ok(())
}

/// Runs operations in three calls of one session.
fn run_parts<E: Order>(
    alloc: Global,
    session: &mut Session<'_, E, Taker>,
    first: &[Op<'_>],
    next: &Op<'_>,
    rest: &[Op<'_>],
) -> Result<RunReport, Fail> {
    let mut report = session.run(alloc, first);
    let applied = session.apply(alloc, next)?;
    add(&mut report, 1, &applied.places)?;
    let last = session.run(alloc, rest);
    add(&mut report, last.accepted, &last.places)?;
    Ok(report)
}

fn run_in_turn_on<E: Order>(
    alloc: Global,
    mounted: &Mounted<'_>,
    flash: Flash,
    ops: &[Op<'_>],
) -> Result<Outcome, Fail>
    requires { IsMountOf E.order flash.geometry.block mounted.now }
{
    let (Some(first), Some(next), Some(rest)) = (ops.get(..2), ops.get(2), ops.get(3..)) else {
        return Err(Fail::from("too few"));
    };
    let mut session = session_on::<E>(alloc, mounted, flash)?;
    let report = run_parts(alloc, &mut session, first, next, rest);
    let output = session.finish().bytes;
    Ok(Outcome {
        output,
        report: report?,
    })
}

/// Runs operations onto an image in three calls of one session: the first two, the next one alone,
/// and the others.
pub fn run_in_turn<E: Order>(
    alloc: Global,
    image: &[u8],
    flash: Flash,
    ops: &[Op<'_>],
) -> Result<Outcome, Fail> {
    let mounted = mount::<E>(alloc, image, flash.geometry)?;
    run_in_turn_on::<E>(alloc, &mounted, flash, ops)
}
