//! What mounts through after writing to the blank blocks of an image stopped, at each byte: the
//! plain file system after the steps whose forms are whole.

ghost use Rattle.std.specs.Prelude.{◌≡◌, ◌≤◌, ◌*◌, true};
ghost use Rattle.jscan.specs.Image.{is_block_size, greatest_image};

use crate::checks::expect_at;
use crate::packed::cases::{Case, EMPTY, FILE, bases, changes, files, plain, replaced};
use crate::packed::cut_tests::{base_of, is_shown_after, ops_in_time, states_of};
use crate::packed::sessions::Outcome;
use crate::rows::grounds::{APART, AROUND, BEFORE, Ground, has_rows, left_after};
use crate::rows::sessions::{Way, run_in_row};
use crate::rows::updates::{bytes, in_two_blocks, names};
use byteorder::{BigEndian, LittleEndian};
use jlog::Flash;
use jnode::Order;
use jpacked::NodeForms;
use jsteps::Op;
use std::alloc::{AllocError, Global};
use std::process::Abort;
use std::test::Fail;
use test_operations::{Change, Plain};
use test_support::Taker;

/// How a case is tried: on which ground, in which forms, how many of its operations are put by a
/// session before the one that stops, and from which byte on each is a stop.
#[derive(Clone, Copy)]
struct Trial {
    ground: Ground,
    forms: NodeForms,
    first: usize,
    stop: usize,
}

const PACKED: Trial = Trial {
    ground: AROUND,
    forms: NodeForms::Packed,
    first: 0,
    stop: 0,
};

/// Whether the blocks of an image that are not blank are kept.
fn is_kept(image: &[u8], left: &[u8], block: u32) -> bool {
    let size = block.max(1) as usize;
    image.chunks(size).zip(left.chunks(size)).all(|(before, after)| {
        before.iter().all(|byte| *byte == 0xFF) || after.starts_with(before)
    })
}

/// Whether each stop from a byte on leaves the state after the steps whose forms are whole.
fn stops_are_whole<E: Order>(
    alloc: Global,
    trial: &Trial,
    flash: Flash,
    image: &[u8],
    run: &Outcome,
    states: &[Plain],
) -> Result<bool, Fail>
    requires readable { is_block_size flash.geometry.block ≡ true }
    requires small { flash.blocks * flash.geometry.block ≤ greatest_image }
{
    let mut is_well = true;
    for count in trial.stop..run.output.len() + 1 {
        let written = run.output.get(..count).unwrap_or(&[]);
        let left = left_after::<E>(alloc, image, flash, written)?;
        is_well = is_well
            && is_kept(image, &left, flash.geometry.block)
            && is_shown_after::<E>(alloc, run, states, &left, flash.geometry, count);
    }
    Ok(is_well)
}

/// The image after a session put operations into its row, and how many nodes it put.
fn image_after<E: Order>(
    alloc: Global,
    image: &[u8],
    way: Way,
    ops: &[Op<'_>],
) -> Result<(Vec<u8>, usize), Fail>
    requires readable { is_block_size way.flash.geometry.block ≡ true }
    requires small { way.flash.blocks * way.flash.geometry.block ≤ greatest_image }
{
    let run = run_in_row::<E>(alloc, image, way, Taker::new(alloc), ops)?;
    let left = left_after::<E>(alloc, image, way.flash, &run.output)?;
    Ok((left, run.report.places.len()))
}

/// Whether each stop of a trial leaves the state after the steps whose forms are whole.
fn survives<E: Order>(alloc: Global, case: &Case<'_>, trial: &Trial) -> Result<bool, Fail> {
    let flash = trial.ground.flash(case.flash);
    if !has_rows(flash) {
        return Err(Fail::from("no rows"));
    }
    let way = Way {
        flash,
        forms: trial.forms,
    };
    let base = base_of::<E>(alloc, case)?;
    let ground = trial.ground.image(alloc, flash.geometry.block, &base)?;
    let ops = ops_in_time(alloc, case.lines)?;
    let (first, rest) = ops.split_at_checked(trial.first).ok_or("too few")?;
    let (image, done) = image_after::<E>(alloc, &ground, way, first)?;
    let run = run_in_row::<E>(alloc, &image, way, Taker::new(alloc), rest)?;
    let states = states_of(alloc, case)?;
    let after = states.get(done..).ok_or("no states")?;
    let taken = trial.ground.taken(&base).wrapping_add(first.len().min(1));
    let is_packed = trial.forms == NodeForms::Packed;
    let is_well = run.from as usize == taken.wrapping_mul(flash.geometry.block as usize)
        && run.report.accepted == rest.len()
        && run.report.places.len() + 1 == after.len()
        && (run.output.len() <= case.most) == (is_packed || !case.is_packed);
    Ok(is_well && stops_are_whole::<E>(alloc, trial, flash, &image, &run, after)?)
}

fn all_survive(
    rt: &impl Abort,
    alloc: Global,
    cases: &[Case<'_>],
    trial: &Trial,
) -> Result<(), Fail> {
    for case in cases {
        let little = survives::<LittleEndian>(alloc, case, trial)?;
        let big = survives::<BigEndian>(alloc, case, trial)?;
        expect_at(rt, little && big, (case.about, trial.ground));
    }
    Ok(())
}

#[test]
fn what_is_left_in_blank_blocks(rt: HostRuntime) -> Result<(), Fail> {
    for ground in [AROUND, APART, BEFORE] {
        let trial = Trial { ground, ..PACKED };
        for cases in [
            files(),
            changes(),
            replaced(),
            plain(),
            bases(),
            names(),
            bytes(),
        ] {
            all_survive(&rt, rt.alloc(), cases, &trial)?;
        }
    }
    Ok(())
}

/// Updates of updates: each begins in a blank block of its own.
#[test]
fn what_a_second_session_leaves(rt: HostRuntime) -> Result<(), Fail> {
    let trial = Trial { first: 1, ..PACKED };
    for cases in [changes(), replaced(), bases(), names(), bytes()] {
        all_survive(&rt, rt.alloc(), cases, &trial)?;
    }
    Ok(())
}

#[test]
fn what_is_left_of_own_forms(rt: HostRuntime) -> Result<(), Fail> {
    let trial = Trial {
        ground: APART,
        forms: NodeForms::Own,
        ..PACKED
    };
    for cases in [plain(), bases(), in_two_blocks()] {
        all_survive(&rt, rt.alloc(), cases, &trial)?;
    }
    Ok(())
}

/// So many writes, of which each is a node of 80 bytes, fill a block of 8,192 bytes and go on in the
/// next.
const WRITES: [&str; 104] = ["write /a 0 300"; 104];

/// Their steps.
fn steps_of_writes(alloc: Global) -> Result<Vec<Change>, AllocError> {
    let mut steps = Vec::new(alloc);
    for time in 1..105 {
        steps.push(Change::Fill(0, 0, 300, time))?;
    }
    Ok(steps)
}

/// Stops about the end of the first block.
#[test]
fn a_packed_log_in_two_blank_blocks(rt: HostRuntime) -> Result<(), Fail> {
    let steps = steps_of_writes(rt.alloc())?;
    let case = Case {
        about: "many writes",
        base: &["create /a 644"],
        before: &[Change::Make(FILE, 0, 1), Change::Name(b"a", 2)],
        lines: &WRITES,
        steps: &steps,
        most: 9000,
        ..EMPTY
    };
    let trial = Trial {
        ground: APART,
        stop: 8000,
        ..PACKED
    };
    all_survive(&rt, rt.alloc(), &[case], &trial)
}
