//! What mounts through after writing to openings of an image stopped, at each byte: the plain file
//! system after the steps whose forms are whole.

ghost use Rattle.std.specs.Prelude.{◌≡◌, ◌≤◌, ◌*◌, true};
ghost use Rattle.jscan.specs.Image.{is_block_size, greatest_image};

use crate::cases::{Case, LONG, PAGES, SMALL};
use crate::checks::expect_at;
use crate::grounds::{AROUND, Ground, SPOILED, fronts_of};
use crate::placed::{count_of, has_openings, index_of, is_kept, left_after, stretches_of};
use crate::sessions::{Outcome, Rows, Runs, Way, run_in};
use byteorder::{BigEndian, LittleEndian};
use jlog::{Flash, Place};
use jnode::Order;
use jopenings::Stretch;
use jpacked::NodeForms;
use jscan::Geometry;
use jsteps::Op;
use jthrough::mount_through;
use std::alloc::Global;
use std::process::Abort;
use std::test::Fail;
use test_operations::Plain;
use test_support::Taker;

/// How a case is tried: on which ground, in which forms the base is and the nodes are, into which
/// openings, and how many of its operations are put by a session before the one that stops.
#[derive(Clone, Copy, Debug)]
struct Trial {
    ground: Ground,
    base: NodeForms,
    forms: NodeForms,
    rows: Rows,
    first: usize,
}

const PACKED: Trial = Trial {
    ground: AROUND,
    base: NodeForms::Packed,
    forms: NodeForms::Packed,
    rows: Rows::All,
    first: 0,
};

/// What is run, and what a stop after each byte of it leaves.
#[derive(Clone, Copy)]
pub struct Stops<'s> {
    pub flash: Flash,
    pub image: &'s [u8],
    pub run: &'s Outcome,
    pub stretches: &'s [Stretch],
    pub states: &'s [Plain],
}

/// Whether all bytes of a form went out among the first `count`, those that did not being erased.
fn is_whole(stops: &Stops<'_>, place: &Place, count: usize) -> bool {
    let Some(start) = index_of(stops.stretches, place, stops.flash.geometry.block) else {
        return false;
    };
    let end = start.saturating_add(place.totlen as usize);
    match stops.run.output.get(start.max(count).min(end)..end) {
        Some(missing) => missing.iter().all(|byte| *byte == 0xFF),
        None => false,
    }
}

/// Whether an image mounts through as a plain file system.
fn shows<E: Order>(alloc: Global, image: &[u8], geometry: Geometry, state: &Plain) -> bool {
    let mut room = [0u8; 20_000];
    let mut contents = Vec::new(alloc);
    match mount_through::<E>(alloc, image, geometry, &mut contents) {
        Ok(mounted) => state.is_shown(&mounted, &mut room),
        Err(_) => false,
    }
}

/// Whether a stop after so many bytes keeps the base, and leaves the state after the steps whose
/// forms are whole.
pub fn is_shown_after<E: Order>(
    alloc: Global,
    stops: &Stops<'_>,
    count: usize,
) -> Result<bool, Fail>
    requires readable { is_block_size stops.now.flash.geometry.block ≡ true }
    requires small { stops.now.flash.blocks * stops.now.flash.geometry.block ≤ greatest_image }
{
    let written = stops.run.output.get(..count).unwrap_or(&[]);
    let left = left_after(alloc, stops.image, stops.flash, stops.stretches, written)?;
    let places = stops.run.places.as_slice();
    let whole = places
        .iter()
        .filter(|it| is_whole(stops, it, count))
        .count();
    let state = stops.states.get(whole).ok_or("no state")?;
    Ok(is_kept(stops.image, &left) && shows::<E>(alloc, &left, stops.flash.geometry, state))
}

/// Whether each stop is one of these.
fn are_shown<E: Order>(alloc: Global, stops: &Stops<'_>) -> Result<bool, Fail>
    requires readable { is_block_size stops.now.flash.geometry.block ≡ true }
    requires small { stops.now.flash.blocks * stops.now.flash.geometry.block ≤ greatest_image }
{
    let mut is_well = true;
    for count in 0..stops.run.output.len() + 1 {
        is_well = is_well && is_shown_after::<E>(alloc, stops, count)?;
    }
    Ok(is_well)
}

/// The image after a session put operations into its openings, and how many nodes it put.
fn image_after<E: Order>(
    alloc: Global,
    image: &[u8],
    way: Way,
    ops: &[Op<'_>],
) -> Result<(Vec<u8>, usize), Fail>
    requires readable { is_block_size way.flash.geometry.block ≡ true }
    requires small { way.flash.blocks * way.flash.geometry.block ≤ greatest_image }
{
    let runs = Runs {
        first: ops,
        second: &[],
    };
    let run = run_in::<E>(alloc, image, way, Taker::new(alloc), runs)?;
    let stretches = stretches_of(alloc, &run.row, &run.places, way.flash.geometry.block)?;
    let left = left_after(alloc, image, way.flash, &stretches, &run.output)?;
    Ok((left, run.places.len()))
}

/// Whether a session puts all operations into an image, the first one in a run of its own, and each
/// stop is as it is to be.
fn stops_are_whole<E: Order>(
    alloc: Global,
    image: &[u8],
    way: Way,
    ops: &[Op<'_>],
    states: &[Plain],
) -> Result<bool, Fail>
    requires readable { is_block_size way.flash.geometry.block ≡ true }
    requires small { way.flash.blocks * way.flash.geometry.block ≤ greatest_image }
{
    let (first, second) = ops.split_at(ops.len().min(1));
    let runs = Runs { first, second };
    let run = run_in::<E>(alloc, image, way, Taker::new(alloc), runs)?;
    let stretches = stretches_of(alloc, &run.row, &run.places, way.flash.geometry.block)?;
    let is_run = run.accepted == ops.len()
        && run.places.len() + 1 == states.len()
        && run.output.len() == count_of(&stretches);
    let stops = Stops {
        flash: way.flash,
        image,
        run: &run,
        stretches: &stretches,
        states,
    };
    Ok(is_run && are_shown::<E>(alloc, &stops)?)
}

/// Whether each stop of a trial leaves the state after the steps whose forms are whole.
fn survives<E: Order>(alloc: Global, case: &Case, trial: &Trial) -> Result<bool, Fail> {
    let flash = trial.ground.flash(case.flash);
    if !has_openings(flash) {
        return Err(Fail::from("no openings"));
    }
    let way = Way {
        flash,
        forms: trial.forms,
        rows: trial.rows,
    };
    let fronts = fronts_of::<E>(alloc, trial.base).ok_or("no base")?;
    let ground = trial.ground.image(alloc, &fronts, flash.geometry.block)?;
    let ops = case.ops(alloc)?;
    let (first, rest) = ops.split_at_checked(trial.first).ok_or("too few")?;
    let (image, done) = image_after::<E>(alloc, &ground, way, first)?;
    let states = case.states(alloc)?;
    match states.get(done..) {
        Some(after) => stops_are_whole::<E>(alloc, &image, way, rest, after),
        None => Err(Fail::from("too many nodes")),
    }
}

fn all_survive(rt: &impl Abort, alloc: Global, cases: &[Case], trial: &Trial) -> Result<(), Fail> {
    for case in cases {
        let little = survives::<LittleEndian>(alloc, case, trial)?;
        let big = survives::<BigEndian>(alloc, case, trial)?;
        expect_at(rt, little && big, (case.about, *trial));
    }
    Ok(())
}

#[test]
fn what_is_left_in_openings(rt: HostRuntime) -> Result<(), Fail> {
    for rows in [Rows::All, Rows::Rests, Rows::Blank] {
        for base in [NodeForms::Packed, NodeForms::Own] {
            for forms in [NodeForms::Packed, NodeForms::Own] {
                let trial = Trial {
                    base,
                    forms,
                    rows,
                    ..PACKED
                };
                all_survive(&rt, rt.alloc(), SMALL, &trial)?;
            }
        }
    }
    Ok(())
}

#[test]
fn what_is_left_beside_spoiled_blocks(rt: HostRuntime) -> Result<(), Fail> {
    for rows in [Rows::All, Rows::Rests, Rows::Blank] {
        for base in [NodeForms::Packed, NodeForms::Own] {
            let trial = Trial {
                ground: SPOILED,
                base,
                rows,
                ..PACKED
            };
            all_survive(&rt, rt.alloc(), SMALL, &trial)?;
        }
    }
    Ok(())
}

#[test]
fn what_is_left_by_each_page(rt: HostRuntime) -> Result<(), Fail> {
    for rows in [Rows::All, Rows::Rests, Rows::Blank] {
        let trial = Trial { rows, ..PACKED };
        all_survive(&rt, rt.alloc(), PAGES, &trial)?;
    }
    Ok(())
}

#[test]
fn what_is_left_in_several_openings(rt: HostRuntime) -> Result<(), Fail> {
    for rows in [Rows::All, Rows::Rests, Rows::Blank] {
        let trial = Trial {
            forms: NodeForms::Own,
            rows,
            ..PACKED
        };
        all_survive(&rt, rt.alloc(), LONG, &trial)?;
    }
    Ok(())
}

/// Updates of updates: all of them go on behind the nodes of the session before.
#[test]
fn what_a_second_session_leaves(rt: HostRuntime) -> Result<(), Fail> {
    for rows in [Rows::All, Rows::Rests, Rows::Blank] {
        let trial = Trial {
            ground: SPOILED,
            first: 1,
            rows,
            ..PACKED
        };
        all_survive(&rt, rt.alloc(), SMALL, &trial)?;
    }
    Ok(())
}
