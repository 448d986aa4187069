//! Sessions whose sink fails once, at each of its calls.

ghost use Rattle.std.specs.Prelude.{◌≡◌, ◌≤◌, ◌*◌, true};
ghost use Rattle.jscan.specs.Image.{is_block_size, greatest_image};

use crate::cases::{Case, SMALL};
use crate::checks::expect_at;
use crate::cut_tests::{Stops, is_shown_after};
use crate::grounds::{FLASH, SPOILED, fronts_of};
use crate::placed::{has_openings, index_of, stretches_of};
use crate::sessions::{Outcome, Rows, Runs, Way, run_in};
use byteorder::{BigEndian, LittleEndian};
use jlog::{Place, SessionFault};
use jnode::Order;
use jpacked::NodeForms;
use jsteps::Op;
use std::alloc::Global;
use std::test::Fail;
use test_support::Taker;

/// Whether a node's bytes are among the first `count` that went out.
fn is_out(stops: &Stops<'_>, place: &Place, count: usize) -> bool {
    match index_of(stops.stretches, place, stops.flash.geometry.block) {
        Some(start) => start.saturating_add(place.totlen as usize) <= count,
        None => false,
    }
}

/// Whether a run that a sink broke off put a beginning of what a whole run puts, and tells the
/// places of its nodes, and the run after it puts nothing: the session is broken.
fn is_broken_off(broken: &Outcome, stops: &Stops<'_>, calls: usize) -> bool {
    let whole = stops.run;
    let told = whole
        .places
        .iter()
        .take_while(|it| is_out(stops, it, calls))
        .count();
    broken.stopped == (Some(SessionFault::Sink), Some(SessionFault::Broken))
        && broken.failures == 1
        && broken.output.len() == calls
        && whole.output.starts_with(&broken.output)
        && broken.places.len() == told
        && whole.places.starts_with(&broken.places)
}

/// Whether a sink that takes one byte a call, and fails once after so many, breaks a session off,
/// and what it took shows the state after the steps whose forms are whole.
fn fails_once<E: Order>(
    alloc: Global,
    stops: &Stops<'_>,
    way: Way,
    ops: &[Op<'_>],
    calls: usize,
) -> Result<bool, Fail>
    requires readable { is_block_size stops.now.flash.geometry.block ≡ true }
    requires small { stops.now.flash.blocks * stops.now.flash.geometry.block ≤ greatest_image }
    requires way { way.flash ≡ stops.now.flash }
{
    let sink = Taker::failing(alloc, 1, calls, calls % 2 == 0);
    let runs = Runs {
        first: ops,
        second: ops,
    };
    let broken = run_in::<E>(alloc, stops.image, way, sink, runs)?;
    Ok(is_broken_off(&broken, stops, calls) && is_shown_after::<E>(alloc, stops, calls)?)
}

/// Whether a sink that fails at any of its calls breaks a session off.
fn fails_at_each<E: Order>(
    alloc: Global,
    stops: &Stops<'_>,
    way: Way,
    ops: &[Op<'_>],
) -> Result<bool, Fail>
    requires readable { is_block_size stops.now.flash.geometry.block ≡ true }
    requires small { stops.now.flash.blocks * stops.now.flash.geometry.block ≤ greatest_image }
    requires way { way.flash ≡ stops.now.flash }
{
    let mut is_well = true;
    for calls in 0..stops.run.output.len() {
        is_well = is_well && fails_once::<E>(alloc, stops, way, ops, calls)?;
    }
    Ok(is_well)
}

fn fails_anywhere<E: Order>(alloc: Global, case: &Case) -> Result<bool, Fail> {
    let flash = SPOILED.flash(FLASH);
    if !has_openings(flash) {
        return Err(Fail::from("no openings"));
    }
    let way = Way {
        flash,
        forms: NodeForms::Packed,
        rows: Rows::All,
    };
    let fronts = fronts_of::<E>(alloc, NodeForms::Packed).ok_or("no base")?;
    let image = SPOILED.image(alloc, &fronts, flash.geometry.block)?;
    let ops = case.ops(alloc)?;
    let states = case.states(alloc)?;
    let runs = Runs {
        first: &ops,
        second: &[],
    };
    let run = run_in::<E>(alloc, &image, way, Taker::new(alloc), runs)?;
    let stretches = stretches_of(alloc, &run.row, &run.places, flash.geometry.block)?;
    let stops = Stops {
        flash,
        image: &image,
        run: &run,
        stretches: &stretches,
        states: &states,
    };
    Ok(run.accepted == ops.len() && fails_at_each::<E>(alloc, &stops, way, &ops)?)
}

#[test]
fn a_sink_that_fails_once(rt: HostRuntime) -> Result<(), Fail> {
    for case in SMALL {
        let little = fails_anywhere::<LittleEndian>(rt.alloc(), case)?;
        let big = fails_anywhere::<BigEndian>(rt.alloc(), case)?;
        expect_at(&rt, little && big, case.about);
    }
    Ok(())
}
