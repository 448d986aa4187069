//! Sessions in the blank blocks of an image whose sink fails once, at each of its calls.

ghost use Rattle.std.specs.Prelude.{◌≡◌, ◌≤◌, ◌*◌, true};
ghost use Rattle.jscan.specs.Image.{is_block_size, greatest_image};

use crate::checks::expect_at;
use crate::packed::cases::{Case, bases, replaced};
use crate::packed::cut_tests::{base_of, is_shown_after, ops_in_time, states_of};
use crate::packed::sessions::Outcome;
use crate::rows::grounds::{APART, has_rows, left_after};
use crate::rows::sessions::{Way, run_in_row};
use crate::rows::updates::{bytes, names};
use byteorder::{BigEndian, LittleEndian};
use jlog::SessionFault;
use jnode::Order;
use jpacked::NodeForms;
use jsteps::Op;
use std::alloc::Global;
use std::test::Fail;
use test_operations::Plain;
use test_support::Taker;

/// Whether a run that its sink broke off tells of a beginning of what a whole one puts.
fn is_broken_off(run: &Outcome, whole: &Outcome, calls: usize) -> bool {
    let end = u64::from(whole.from).wrapping_add(calls as u64);
    let told = whole
        .report
        .places
        .iter()
        .take_while(|it| u64::from(it.addr).wrapping_add(u64::from(it.totlen)) <= end)
        .count();
    run.report.stopped == Some(SessionFault::Sink)
        && run.failures == 1
        && run.output.len() == calls
        && whole.output.starts_with(&run.output)
        && run.report.places.len() == told
        && whole.report.places.starts_with(&run.report.places)
}

/// What goes out to a sink that never fails, into the row of which image, for which operations, and
/// the plain file systems after their steps.
#[derive(Clone, Copy)]
struct Whole<'w> {
    image: &'w [u8],
    ops: &'w [Op<'w>],
    run: &'w Outcome,
    states: &'w [Plain],
}

/// Whether a sink that takes one byte a call, and fails once after so many, breaks a run off, and
/// what it took shows the state after the steps whose forms are whole.
fn fails_once<E: Order>(
    alloc: Global,
    way: Way,
    whole: &Whole<'_>,
    calls: usize,
) -> Result<bool, Fail>
    requires readable { is_block_size way.flash.geometry.block ≡ true }
    requires small { way.flash.blocks * way.flash.geometry.block ≤ greatest_image }
{
    let sink = Taker::failing(alloc, 1, calls, calls % 2 == 0);
    let run = run_in_row::<E>(alloc, whole.image, way, sink, whole.ops)?;
    let left = left_after::<E>(alloc, whole.image, way.flash, &run.output)?;
    let geometry = way.flash.geometry;
    let states = whole.states;
    Ok(
        is_broken_off(&run, whole.run, calls)
            && is_shown_after::<E>(alloc, whole.run, states, &left, geometry, calls),
    )
}

/// Whether a sink that fails at any of its calls breaks a case off.
fn fails_anywhere<E: Order>(alloc: Global, case: &Case<'_>) -> Result<bool, Fail> {
    let flash = APART.flash(case.flash);
    if !has_rows(flash) {
        return Err(Fail::from("no rows"));
    }
    let way = Way {
        flash,
        forms: NodeForms::Packed,
    };
    let base = base_of::<E>(alloc, case)?;
    let image = APART.image(alloc, flash.geometry.block, &base)?;
    let ops = ops_in_time(alloc, case.lines)?;
    let states = states_of(alloc, case)?;
    let run = run_in_row::<E>(alloc, &image, way, Taker::new(alloc), &ops)?;
    let whole = Whole {
        image: &image,
        ops: &ops,
        run: &run,
        states: &states,
    };
    let mut is_well = run.report.accepted == ops.len();
    for calls in 0..run.output.len() {
        is_well = is_well && fails_once::<E>(alloc, way, &whole, calls)?;
    }
    Ok(is_well)
}

#[test]
fn a_sink_that_fails_once(rt: HostRuntime) -> Result<(), Fail> {
    for cases in [replaced(), bases(), names(), bytes()] {
        for case in cases {
            let little = fails_anywhere::<LittleEndian>(rt.alloc(), case)?;
            let big = fails_anywhere::<BigEndian>(rt.alloc(), case)?;
            expect_at(&rt, little && big, case.about);
        }
    }
    Ok(())
}
