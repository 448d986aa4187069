//! An image in which no node is found: some commands do not go on with it, and others note it.

ghost use Rattle.std.specs.Prelude.{◌≡◌, ◌↔◌, ◌<◌, ◌^◌, [], IfErr, IsTrue, OnOk, length, option_map};
ghost use Rattle.flashbase.specs.Sinks.{PutsTo};
ghost use Rattle.jnode.specs.declared.order.Endian.{Endian};
ghost use Rattle.jscan.specs.Scans.{IsScannable};
ghost use Rattle.jreport.specs.ExtractionNotes.{line_of_count};
ghost use Rattle.jreport.specs.NoNodes.{HasNoNode, IsAllErased, IsNoNodes, TellsNone, node_count, none_line_of, none_notes_of, other_order};
ghost use Rattle.jreport.specs.Notes.{note_line_of};

use crate::faults::ProgramFault;
use crate::image_fault::{ImageFault, push_image_note};
use crate::notes::put_note;
use byteorder::{BigEndian, LittleEndian};
use flashbase::{DeviceFault, Sink, erased_run};
use jline::{LineBuffer, put_text};
use jnode::Order;
use jscan::{Geometry, Sightings};

/// How many nodes an image has in a byte order.
fn node_count<E: Order>(image: &[u8], geometry: Geometry) -> u64
    requires { IsScannable geometry.block image.now }
    ensures count { result ≡ node_count E.order geometry.block image.now }
    ensures few { result < 2 ^ 32 }
{
    let Ok(sightings) = Sightings::<E>::new(image, geometry) else {
        return 0;
    };
    let mut count = 0;
    for _sighting in sightings {
        count += 1;
    }
    count
}

/// Whether an image has only bytes of erased flash.
fn is_all_erased(image: &[u8]) -> bool
    ensures { IsTrue result ↔ IsAllErased image.now }
{
    erased_run(image) == image.len()
}

/// How many nodes an image has in the other byte order, where it has none in one.
fn other_count(image: &[u8], geometry: Geometry) -> u64
    requires { IsScannable geometry.block image.now }
    ensures { (e : Endian) → HasNoNode e geometry.block image.now
        → result ≡ node_count (other_order e) geometry.block image.now }
{
    node_count::<LittleEndian>(image, geometry) + node_count::<BigEndian>(image, geometry)
}

/// Of an image in which no node is found in this byte order, and which is not blank, how many nodes
/// it has in the other one.
pub fn others_if_none<E: Order>(image: &[u8], geometry: Geometry) -> Option<u64>
    ensures { TellsNone E.order geometry.block image.now result }
{
    let Ok(mut sightings) = Sightings::<E>::new(image, geometry) else {
        return None;
    };
    match sightings.next() {
        Some(_) => return None,
        None => {}
    }
    if is_all_erased(image) {
        return None;
    }
    Some(other_count(image, geometry))
}

/// Refuses an image in which no node is found in this byte order, and which is not blank. `name`
/// tells it from others that are read.
pub fn refuse_no_nodes<'a, E: Order>(
    image: &[u8],
    geometry: Geometry,
    name: Option<&'a str>,
) -> Result<(), ProgramFault<'a>>
    ensures ok { OnOk result (HasNoNode E.order geometry.block image.now → ⊥) }
    ensures fault { IfErr result (IsNoNodes E.order geometry.block image.now
        (option_map (λ n. n.now) name.entry)) }
{
    match others_if_none::<E>(image, geometry) {
        None => Ok(()),
        Some(others) => Err(ProgramFault::Image(ImageFault::NoNodes { name, others })),
    }
}

/// The note that no node is found, with how many the other byte order has.
#[tactic(auto, unfolding(crate::specs::NoNodes::none_line_of))]
fn write_none(line: &mut LineBuffer, others: u64)
    requires { line.old ≡ [] }
    ensures { line.new ≡ none_line_of others }
{
    let mut note = LineBuffer::new();
    push_image_note(&mut note, ImageFault::NoNodes { name: None, others });
    line.push_text(b"jffs2_image: note: ");
    line.push_text(note.as_slice());
    line.push_text(b"\n");
}

/// Puts it.
fn put_none<T: Sink>(others: u64, sink: &mut T) -> Result<(), DeviceFault>
    ensures { PutsTo T.Sink sink.old sink.new (none_line_of others) result }
{
    let mut line = LineBuffer::new();
    write_none(&mut line, others);
    put_text(sink, line.as_slice())
}

/// Puts the note that there are so many findings, where there are any.
fn put_some<T: Sink>(findings: u64, sink: &mut T) -> Result<(), DeviceFault>
    ensures { PutsTo T.Sink sink.old sink.new (line_of_count note_line_of findings) result }
{
    if findings == 0 {
        return Ok(());
    }
    put_note(findings, sink)
}

/// Puts the notes on an image in which no node is found: that there are so many findings, where
/// there are any, and how many nodes the other byte order has.
pub fn put_none_notes<T: Sink>(findings: u64, others: u64, sink: &mut T) -> Result<(), DeviceFault>
    ensures { PutsTo T.Sink sink.old sink.new (none_notes_of findings others) result }
{
    put_some(findings, sink)?;
    put_none(others, sink)
}
