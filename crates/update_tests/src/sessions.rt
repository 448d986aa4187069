//! Operations run into openings of an image. What may fail while a mounted image or a session lives
//! is a call of its own: each `?` proves anew that all that lives is dropped.

ghost use Rattle.std.specs.Prelude.{◌≡◌, ◌==◌, ◌≤◌, ◌*◌, filter, true, IfOk};
ghost use Rattle.jscan.specs.Image.{is_block_size, greatest_image};
ghost use Rattle.jrests.specs.Openings.{AreOpeningsOf};
ghost use Rattle.jpacked.specs.View.{base_of_mount};
ghost use Rattle.jview.specs.Through.{IsMountThroughOf};

use jlog::{Flash, Place, RunReport, SessionFault};
use jmount::Mounted;
use jnode::Order;
use jpacked::NodeForms;
use jrests::{Opening, openings_of, rests_of};
use jsteps::Op;
use jthrough::mount_through;
use jupdate::OpeningSession;
use std::alloc::{AllocError, Global};
use std::test::Fail;
use test_support::Taker;

/// Which openings of an image a session goes on in.
#[derive(Clone, Copy, Debug, PartialEq, Eq)]
pub enum Rows {
    /// All of them.
    All,
    /// The rests of begun blocks.
    Rests,
    /// Blank blocks.
    Blank,
}

/// A flash, the forms in which nodes go onto it, and into which openings.
#[derive(Clone, Copy, Debug)]
pub struct Way {
    pub flash: Flash,
    pub forms: NodeForms,
    pub rows: Rows,
}

/// Operations of one session, in two runs.
#[derive(Clone, Copy)]
pub struct Runs<'r, 'o> {
    pub first: &'r [Op<'o>],
    pub second: &'r [Op<'o>],
}

/// What two runs put, into which openings, how often the sink failed, how many operations were
/// accepted, where their nodes are, and why each run stopped.
#[derive(Drop)]
pub struct Outcome {
    pub row: Vec<Opening>,
    pub output: Vec<u8>,
    pub failures: u64,
    pub accepted: usize,
    pub places: Vec<Place>,
    pub stopped: (Option<SessionFault>, Option<SessionFault>),
}

/// Those of some openings that begin with their blocks.
fn fronts_in(alloc: Global, openings: &[Opening]) -> Result<Vec<Opening>, AllocError>
    ensures { IfOk result (λ fronts. fronts.items ≡ filter (λ o. o.place == 0) openings.now) }
{
    let mut fronts = Vec::new(alloc);
    for opening in openings {
        if opening.place == 0 {
            fronts.push(*opening)?;
        }
    }
    Ok(fronts)
}

/// The openings of an image that a session goes on in.
#[tactic(auto, using(crate::proofs::RowLemmas::all_open, crate::proofs::RowLemmas::rests_open, crate::proofs::RowLemmas::fronts_open))]
pub fn openings_in<E: Order>(
    alloc: Global,
    image: &[u8],
    flash: Flash,
    rows: Rows,
) -> Result<Vec<Opening>, AllocError>
    requires readable { is_block_size flash.geometry.block ≡ true }
    requires small { flash.blocks * flash.geometry.block ≤ greatest_image }
    ensures { IfOk result (λ row. AreOpeningsOf E.order flash.geometry.block flash.blocks image.now
        row.items) }
{
    let Flash {
        geometry,
        blocks,
        ..
    } = flash;
    match rows {
        Rows::All => openings_of::<E>(alloc, image, geometry, blocks),
        Rows::Rests => rests_of::<E>(alloc, image, geometry, blocks),
        Rows::Blank => {
            let openings = openings_of::<E>(alloc, image, geometry, blocks)?;
            fronts_in(alloc, &openings)
        }
    }
}

/// A session in openings of a mounted image.
pub fn session_in<E: Order>(
    alloc: Global,
    mounted: &Mounted<'_>,
    way: Way,
    row: Vec<Opening>,
    sink: Taker,
) -> Result<OpeningSession<E, Taker>, SessionFault>
    requires through { IsMountThroughOf E.order way.flash.geometry.block mounted.now }
    requires row { AreOpeningsOf E.order way.flash.geometry.block way.flash.blocks
        (base_of_mount mounted.now) row.items }
{
    match OpeningSession::<E, Taker>::resume(alloc, mounted, way.flash, row, way.forms, sink) {
        Ok(session) => Ok(session),
        Err((fault, _)) => Err(fault),
    }
}

/// Runs operations, and ends the session.
fn run_out<E: Order>(
    alloc: Global,
    mut session: OpeningSession<E, Taker>,
    runs: Runs<'_, '_>,
) -> (RunReport, RunReport, Taker) {
    let first = session.run(alloc, runs.first);
    let second = session.run(alloc, runs.second);
    (first, second, session.finish())
}

fn run_with<E: Order>(
    alloc: Global,
    mounted: &Mounted<'_>,
    way: Way,
    row: Vec<Opening>,
    sink: Taker,
    runs: Runs<'_, '_>,
) -> Result<(RunReport, RunReport, Taker), SessionFault>
    requires through { IsMountThroughOf E.order way.flash.geometry.block mounted.now }
    requires row { AreOpeningsOf E.order way.flash.geometry.block way.flash.blocks
        (base_of_mount mounted.now) row.items }
{
    let session = session_in::<E>(alloc, mounted, way, row, sink)?;
    Ok(run_out::<E>(alloc, session, runs))
}

/// What two runs did.
fn joined(
    row: Vec<Opening>,
    first: RunReport,
    second: RunReport,
    sink: Taker,
) -> Result<Outcome, AllocError> {
    let RunReport {
        accepted,
        mut places,
        stopped,
    } = first;
    places.extend_from_slice(&second.places)?;
    Ok(Outcome {
        row,
        output: sink.bytes,
        failures: sink.failures,
        accepted: accepted.wrapping_add(second.accepted),
        places,
        stopped: (stopped, second.stopped),
    })
}

/// Runs operations into openings of an image.
pub fn run_in<E: Order>(
    alloc: Global,
    image: &[u8],
    way: Way,
    sink: Taker,
    runs: Runs<'_, '_>,
) -> Result<Outcome, Fail>
    requires readable { is_block_size way.flash.geometry.block ≡ true }
    requires small { way.flash.blocks * way.flash.geometry.block ≤ greatest_image }
{
    let mut contents = Vec::new(alloc);
    let mounted = mount_through::<E>(alloc, image, way.flash.geometry, &mut contents)?;
    let row = openings_in::<E>(alloc, mounted.image(), way.flash, way.rows)?;
    let openings = row.clone()?;
    let (first, second, sink) = run_with::<E>(alloc, &mounted, way, row, sink, runs)?;
    Ok(joined(openings, first, second, sink)?)
}
