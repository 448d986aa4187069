//! The map of an image, as text.

ghost use Rattle.std.specs.Prelude.{◌≡◌, ◌+◌, ◌<◌, ◌≤◌, AllPairs, IfOk, IsTrue, OnOk, length};
ghost use Rattle.std.specs.List.{flat_map};
ghost use Rattle.flashbase.specs.Lists.{below};
ghost use Rattle.flashbase.specs.Sinks.{PutsTo, change_of};
ghost use Rattle.jscan.specs.Counts.{extents_below};
ghost use Rattle.jscan.specs.Image.{block_count, greatest_image, is_block_size};
ghost use Rattle.jscan.specs.Scans.{image_extents};
ghost use Rattle.jmap.specs.ByteKinds.{byte_kinds, tally_of};
ghost use Rattle.jmap.specs.MapText.{PutsMap, block_map, map_heading, map_text};

use crate::bar::survey;
use crate::columns::{block_line, total_line};
use crate::fault::MapFault;
use crate::tally::Tally;
use flashbase::{DeviceFault, Sink};
use jline::put_text;
use jnode::Order;
use jscan::{GREATEST_IMAGE, Geometry, block_at};

/// Puts the line of block `k` of an image, and counts its bytes.
fn put_block<E: Order, T: Sink>(
    image: &[u8],
    size: usize,
    k: usize,
    kept: &[u32],
    total: &mut Tally,
    sink: &mut T,
) -> Result<(), DeviceFault>
    requires ascending { AllPairs (λ a b. a < b) kept.now }
    requires size { IsTrue (is_block_size size) }
    requires small { length image.now ≤ greatest_image }
    requires next { k < block_count size image.now }
    requires total { total.old
        ≡ tally_of (byte_kinds kept.now (extents_below E.order size image.now k)) }
    ensures puts { PutsTo T.Sink sink.old sink.new (block_map E.order size image.now kept.now k)
        result }
    ensures total { OnOk result (total.new
        ≡ tally_of (byte_kinds kept.now (extents_below E.order size image.now (k + 1)))) }
{
    let start = k * size;
    let (tally, bar) = survey::<E>(start as u32, block_at(image, start, size), kept);
    total.add_all(&tally);
    let line = block_line(k as u64, start as u32, &tally, bar.as_slice());
    put_text(sink, line.as_slice())
}

/// Puts the lines of all blocks, and answers how many bytes of each kind they have.
fn put_blocks<E: Order, T: Sink>(
    image: &[u8],
    size: usize,
    kept: &[u32],
    sink: &mut T,
) -> Result<Tally, DeviceFault>
    requires ascending { AllPairs (λ a b. a < b) kept.now }
    requires size { IsTrue (is_block_size size) }
    requires small { length image.now ≤ greatest_image }
    ensures puts { PutsTo T.Sink sink.old sink.new
        (flat_map (block_map E.order size image.now kept.now) (below (block_count size image.now)))
        result }
    ensures total { IfOk result (λ total.
        total ≡ tally_of (byte_kinds kept.now (image_extents E.order size image.now))) }
{
    let mut total = Tally::new();
    for k in 0..image.len().div_ceil(size) {
        put_block::<E, T>(image, size, k, kept, &mut total, sink)?;
    }
    Ok(total)
}

/// Puts the text of an image that can be scanned.
#[tactic(auto, unfolding(crate::specs::MapText::map_text))]
fn put_lines<E: Order, T: Sink>(
    image: &[u8],
    size: usize,
    kept: &[u32],
    sink: &mut T,
) -> Result<(), DeviceFault>
    requires ascending { AllPairs (λ a b. a < b) kept.now }
    requires size { IsTrue (is_block_size size) }
    requires small { length image.now ≤ greatest_image }
    ensures { PutsTo T.Sink sink.old sink.new (map_text E.order size image.now kept.now) result }
{
    put_text(sink, HEADING)?;
    let total = put_blocks::<E, T>(image, size, kept, sink)?;
    put_text(sink, total_line(&total).as_slice())
}

/// What the characters of a bar mean, and the names of the columns.
const HEADING: &[u8] = b"# live  - superseded  o obsolete  ! damaged  . free\n\
block  address       live superseded   obsolete    damaged       free\n";

/// Puts the map of an image of which the nodes at these addresses are kept: a line for each block,
/// with how many of its bytes are live, superseded, obsolete, damaged and free, and a bar that
/// shows them; and a line of totals. It takes no memory.
///
/// # Errors
/// `BlockSize`, `TooLarge`: nothing was put. `Output`: the sink failed, and took a beginning.
pub fn put_map<E: Order, T: Sink>(
    image: &[u8],
    geometry: Geometry,
    kept: &[u32],
    sink: &mut T,
) -> Result<(), MapFault>
    requires { AllPairs (λ a b. a < b) kept.now }
    ensures { PutsMap geometry.block image.now
        (map_text E.order geometry.block image.now kept.now)
        (change_of T.Sink sink.old sink.new) result }
{
    if !geometry.is_readable() {
        return Err(MapFault::BlockSize);
    }
    if GREATEST_IMAGE < image.len() {
        return Err(MapFault::TooLarge);
    }
    put_lines::<E, T>(image, geometry.block as usize, kept, sink)?;
    Ok(())
}
