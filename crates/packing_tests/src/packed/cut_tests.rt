//! What mounts through after writing stopped, at each byte: the plain file system after the steps
//! whose forms are whole.

use crate::checks::expect_at;
use crate::packed::cases::{Case, bases, changes, files, plain, replaced};
use crate::packed::sessions::{Outcome, run_in};
use byteorder::{BigEndian, LittleEndian};
use jlog::Place;
use jnode::Order;
use jpacked::NodeForms;
use jscan::Geometry;
use jsteps::Op;
use jthrough::mount_through;
use std::alloc::Global;
use std::process::Abort;
use std::test::Fail;
use test_operations::{By, Change, Plain, op_of};

/// The operations of lines, asked for at the times 1, 2 and so on.
pub fn ops_in_time(alloc: Global, lines: &[&'static str]) -> Result<Vec<Op<'static>>, Fail> {
    let mut ops = Vec::new(alloc);
    let mut time = 0u32;
    for line in lines {
        time = time.wrapping_add(1);
        let by = By {
            time,
            uid: 0,
            gid: 0,
        };
        ops.push(op_of(line, by).ok_or("no operation")?)?;
    }
    Ok(ops)
}

/// The flash up to where a base ends, and what the base's operations put there.
pub fn base_of<E: Order>(alloc: Global, case: &Case<'_>) -> Result<Vec<u8>, Fail> {
    let ops = ops_in_time(alloc, case.base)?;
    Ok(run_in::<E>(alloc, &[], case.flash, NodeForms::Packed, &ops)?.output)
}

/// Takes steps.
fn take_all(alloc: Global, state: &mut Plain, changes: &[Change]) -> Result<(), Fail> {
    for change in changes {
        state.take(alloc, change)?;
    }
    Ok(())
}

/// The plain file systems after none of the steps, after one, and so on.
pub fn states_of(alloc: Global, case: &Case<'_>) -> Result<Vec<Plain>, Fail> {
    let mut states = Vec::new(alloc);
    for count in 0..case.steps.len() + 1 {
        let mut state = Plain::new(alloc);
        take_all(alloc, &mut state, case.before)?;
        take_all(alloc, &mut state, case.steps.get(..count).unwrap_or(&[]))?;
        states.push(state)?;
    }
    Ok(states)
}

/// What is left after `count` bytes of the output: the base, and these from the cursor on.
fn left_after(alloc: Global, base: &[u8], run: &Outcome, count: usize) -> Result<Vec<u8>, Fail> {
    let mut image = Vec::new(alloc);
    image.extend_from_slice(base)?;
    image.resize(run.from as usize, 0xFF)?;
    image.extend_from_slice(run.output.get(..count).unwrap_or(&[]))?;
    Ok(image)
}

/// Whether the form at a place has all bytes after `count` of them went out, those that did not
/// being erased.
fn is_whole(run: &Outcome, place: &Place, count: usize) -> bool {
    let start = place.addr.saturating_sub(run.from) as usize;
    let end = start.saturating_add(place.totlen as usize);
    match run.output.get(start.max(count).min(end)..end) {
        Some(missing) => missing.iter().all(|byte| *byte == 0xFF),
        None => false,
    }
}

/// Whether an image mounts through as a plain file system.
fn shows<E: Order>(alloc: Global, image: &[u8], geometry: Geometry, state: &Plain) -> bool {
    let mut room = [0u8; 20_000];
    let mut contents = Vec::new(alloc);
    match mount_through::<E>(alloc, image, geometry, &mut contents) {
        Ok(mounted) => state.is_shown(&mounted, &mut room),
        Err(_) => false,
    }
}

/// Whether an image that is left after `count` bytes mounts through as the state after the steps
/// whose forms are whole.
pub fn is_shown_after<E: Order>(
    alloc: Global,
    run: &Outcome,
    states: &[Plain],
    image: &[u8],
    geometry: Geometry,
    count: usize,
) -> bool {
    let places = run.report.places.as_slice();
    let whole = places.iter().filter(|it| is_whole(run, it, count)).count();
    match states.get(whole) {
        Some(state) => shows::<E>(alloc, image, geometry, state),
        None => false,
    }
}

/// Whether each stop leaves the state after the steps whose forms are whole.
fn survives<E: Order>(alloc: Global, case: &Case<'_>, forms: NodeForms) -> Result<bool, Fail> {
    let base = base_of::<E>(alloc, case)?;
    let ops = ops_in_time(alloc, case.lines)?;
    let run = run_in::<E>(alloc, &base, case.flash, forms, &ops)?;
    let states = states_of(alloc, case)?;
    let mut is_well = run.report.accepted == ops.len()
        && run.report.places.len() == case.steps.len()
        && (run.output.len() <= case.most) == (forms == NodeForms::Packed || !case.is_packed);
    for count in 0..run.output.len() + 1 {
        let left = left_after(alloc, &base, &run, count)?;
        is_well = is_well
            && is_shown_after::<E>(alloc, &run, &states, &left, case.flash.geometry, count);
    }
    Ok(is_well)
}

fn all_survive(
    rt: &impl Abort,
    alloc: Global,
    cases: &[Case<'_>],
    forms: NodeForms,
) -> Result<(), Fail> {
    for case in cases {
        let little = survives::<LittleEndian>(alloc, case, forms)?;
        let big = survives::<BigEndian>(alloc, case, forms)?;
        expect_at(rt, little && big, case.about);
    }
    Ok(())
}

#[test]
fn what_is_left_of_packed_nodes(rt: HostRuntime) -> Result<(), Fail> {
    for cases in [files(), changes(), replaced(), plain(), bases()] {
        all_survive(&rt, rt.alloc(), cases, NodeForms::Packed)?;
    }
    Ok(())
}

/// On a compressed base too.
#[test]
fn what_is_left_of_nodes_in_their_own_forms(rt: HostRuntime) -> Result<(), Fail> {
    for cases in [plain(), bases()] {
        all_survive(&rt, rt.alloc(), cases, NodeForms::Own)?;
    }
    Ok(())
}
