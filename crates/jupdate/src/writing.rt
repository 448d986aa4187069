//! Putting the forms of steps into a row of openings.

ghost use Rattle.std.specs.Prelude.{◌≡◌, ◌≤◌, ◌<◌, ◌+◌, IsTrue, [], ◌∷◌, vec_len, vec_capacity, length};
ghost use Rattle.std.specs.List.{AllByRecursion};
ghost use Rattle.flashbase.specs.Sinks.{change_of};
ghost use Rattle.jlog.specs.Laws.{FitsBlock};
ghost use Rattle.jlog.specs.Places.{is_writable_flash, place_after};
ghost use Rattle.jlog.specs.Running.{CanWriteIn};
ghost use Rattle.jsteps.specs.Nodes.{node_of, nodes_of};
ghost use Rattle.jrests.specs.Shares.{fit_in};
ghost use Rattle.jpacked.specs.Forms.{AreMadeOf, IsMadeOf, form_with, step_forms};
ghost use Rattle.jopenings.specs.Stretches.{AreStretches};
ghost use Rattle.jupdate.specs.Rows.{IsOpen, begins_of, left_in};
ghost use Rattle.jupdate.specs.Writing.{log_in, GrowsBy, PutsOneForm, PutsIn};

use crate::row::{Spot, begin_of, behind, find};
use flashbase::{PutFault, Sink, pad4, put_all};
use jlog::{Blocks, Place, Stop, node_of, put_erased, put_gap};
use jnode::Order;
use jopenings::Stretch;
use jpacked::{Stream, push_place, write_form};
use jsteps::{Index, Step, advance};

/// What went out to a row of openings, where a log goes on in it, and its sink.
#[derive(Drop)]
pub(crate) struct Log<S: Sink> {
    /// What went out to each opening of the row.
    pub stretches: Vec<Stretch>,
    /// How many openings were passed.
    pub passed: usize,
    pub index: Index,
    /// The bytes of one node.
    pub buffer: Vec<u8>,
    pub sink: S,
}

/// Puts a form at its spot, with what goes out before it in its block and 0xFF up to a multiple of
/// 4 behind it, and tells its place.
fn put_form<E: Order, S: Sink>(
    sink: &mut S,
    places: &mut Vec<Place>,
    flash: Blocks,
    spot: Spot,
    form: &[u8],
) -> Result<(), PutFault>
    requires flash { IsTrue (is_writable_flash flash.size flash.count) }
    requires block { spot.block < flash.count }
    requires fits { FitsBlock flash.size form.now }
    requires at { spot.at ≡ place_after flash.size spot.cursor.place (length form.now) }
    requires inside { spot.at + length form.now ≤ flash.size }
    requires room { vec_len places.old + 1 ≤ vec_capacity places.old }
    ensures puts { PutsOneForm E.order flash.size
        (record { block = spot.block; place = spot.cursor.place }) form.now
        places.old.items places.new.items (change_of S.Sink sink.old sink.new) result }
    ensures len { vec_len places.new ≤ vec_len places.old + 1 }
    ensures capacity { vec_capacity places.old ≤ vec_capacity places.new }
{
    let len = form.len();
    put_gap::<E, S>(sink, flash.size, spot.cursor.place, spot.at)?;
    put_all(sink, form)?;
    push_place(places, spot.block * flash.size + spot.at, len as u32);
    put_erased(sink, pad4(len as u32) as usize - len)
}

/// Puts the form of a step's node into the row, and goes on after it.
fn put_step<E: Order, S: Sink>(
    log: &mut Log<S>,
    places: &mut Vec<Place>,
    flash: Blocks,
    step: &Step<'_>,
    stream: &[u8],
) -> Result<(), Stop>
    requires flash { IsTrue (is_writable_flash flash.size flash.count) }
    requires stretches { AreStretches flash.size 0 flash.count log.old.stretches.items }
    requires openings { AllByRecursion (IsOpen flash.size flash.count)
        (left_in log.old.passed log.old.stretches.items) }
    requires step { CanWriteIn flash.size E.order log.old.index (step.now ∷ []) }
    requires made { IsMadeOf E.order (node_of log.old.index step.now) stream.now }
    requires space { IsTrue (fit_in flash.size (left_in log.old.passed log.old.stretches.items)
        (form_with E.order (node_of log.old.index step.now) stream.now ∷ [])) }
    requires room { vec_len places.old + 1 ≤ vec_capacity places.old }
    ensures puts { PutsIn E.order flash.size
        (log_in (left_in log.old.passed log.old.stretches.items) log.old.index places.old.items)
        (step.now ∷ []) (form_with E.order (node_of log.old.index step.now) stream.now ∷ [])
        (log_in (left_in log.new.passed log.new.stretches.items) log.new.index places.new.items)
        (change_of S.Sink log.old.sink log.new.sink) result }
    ensures within { AreStretches flash.size 0 flash.count log.new.stretches.items }
    ensures begins { begins_of log.new.stretches.items ≡ begins_of log.old.stretches.items }
    ensures stretches { GrowsBy E.order flash.size
        (left_in log.old.passed log.old.stretches.items)
        (form_with E.order (node_of log.old.index step.now) stream.now ∷ [])
        log.old.stretches.items log.new.stretches.items result }
    ensures len { vec_len places.new ≤ vec_len places.old + 1 }
    ensures capacity { vec_capacity places.old ≤ vec_capacity places.new }
{
    let node = node_of(&log.index, step);
    if write_form::<E>(&mut log.buffer, &node, stream).is_err() {
        return Err(Stop::Unbegun);
    }
    if advance(&mut log.index, step).is_err() {
        return Err(Stop::Unbegun);
    }
    let len = log.buffer.len() as u32;
    let cursor = begin_of(flash, &log.stretches, log.passed);
    let spot = find(flash, &log.stretches, cursor, len).unwrap();
    if put_form::<E, S>(&mut log.sink, places, flash, spot, &log.buffer).is_err() {
        return Err(Stop::Sink);
    }
    let next = behind(spot, len);
    log.stretches[next.passed].len += next.place - spot.cursor.place;
    log.passed = next.passed;
    Ok(())
}

/// Puts the forms of steps into the row, one after another.
pub(crate) fn put_steps<E: Order, S: Sink>(
    log: &mut Log<S>,
    places: &mut Vec<Place>,
    flash: Blocks,
    steps: &[Step<'_>],
    streams: &[Stream],
) -> Result<(), Stop>
    requires flash { IsTrue (is_writable_flash flash.size flash.count) }
    requires stretches { AreStretches flash.size 0 flash.count log.old.stretches.items }
    requires openings { AllByRecursion (IsOpen flash.size flash.count)
        (left_in log.old.passed log.old.stretches.items) }
    requires steps { CanWriteIn flash.size E.order log.old.index steps.now }
    requires made { AreMadeOf E.order (nodes_of log.old.index steps.now) streams.now }
    requires space { IsTrue (fit_in flash.size (left_in log.old.passed log.old.stretches.items)
        (step_forms E.order log.old.index steps.now streams.now)) }
    requires room { vec_len places.old + length steps.now ≤ vec_capacity places.old }
    ensures puts { PutsIn E.order flash.size
        (log_in (left_in log.old.passed log.old.stretches.items) log.old.index places.old.items)
        steps.now (step_forms E.order log.old.index steps.now streams.now)
        (log_in (left_in log.new.passed log.new.stretches.items) log.new.index places.new.items)
        (change_of S.Sink log.old.sink log.new.sink) result }
    ensures within { AreStretches flash.size 0 flash.count log.new.stretches.items }
    ensures begins { begins_of log.new.stretches.items ≡ begins_of log.old.stretches.items }
    ensures stretches { GrowsBy E.order flash.size
        (left_in log.old.passed log.old.stretches.items)
        (step_forms E.order log.old.index steps.now streams.now)
        log.old.stretches.items log.new.stretches.items result }
{
    let mut i = 0;
    while i < steps.len() {
        let stream = streams[i].as_slice();
        match put_step::<E, S>(log, places, flash, &steps[i], stream) {
            Ok(()) => i += 1,
            Err(Stop::Sink) => return Err(Stop::Sink),
            Err(Stop::Begun) => return Err(Stop::Begun),
            Err(Stop::Unbegun) => {
                if i == 0 {
                    return Err(Stop::Unbegun);
                }
                return Err(Stop::Begun);
            }
        }
    }
    Ok(())
}
