//! What lies on the flash after bytes went out to openings, and stopped.

ghost use Rattle.std.specs.Prelude.{◌≡◌, ◌+◌, ◌*◌, ◌<◌, ◌≤◌, true};
ghost use Rattle.jscan.specs.Image.{is_block_size, greatest_image};
ghost use Rattle.jopenings.specs.Stretches.{AreStretches};

use jlog::{Flash, Place};
use jopenings::{Stretch, StretchesOnFlash, len_with_stretches, put_with_stretches};
use jrests::Opening;
use jscan::GREATEST_IMAGE;
use std::alloc::{AllocError, Global};
use std::test::Fail;
use test_support::Taker;

/// Whether a flash is one in which openings are found.
pub fn has_openings(flash: Flash) -> bool
    ensures readable { result ≡ true → is_block_size flash.geometry.block ≡ true }
    ensures small { result ≡ true → flash.blocks * flash.geometry.block ≤ greatest_image }
{
    match flash.blocks.checked_mul(flash.geometry.block) {
        Some(len) => flash.geometry.is_readable() && len as usize <= GREATEST_IMAGE,
        None => false,
    }
}

/// Where in its block a node's last word ends.
fn end_of(place: &Place, size: u32) -> u32 {
    let end = (place.addr % size.max(1)).wrapping_add(place.totlen);
    end.wrapping_add(3) / 4 * 4
}

/// How many bytes went out to an opening for the nodes at these places.
fn len_in(opening: Opening, places: &[Place], size: u32) -> u32 {
    let mut end = opening.place;
    for place in places {
        if place.addr / size.max(1) == opening.block {
            end = end_of(place, size);
        }
    }
    end.saturating_sub(opening.place)
}

/// The stretches of openings, of which these are the nodes.
pub fn stretches_of(
    alloc: Global,
    row: &[Opening],
    places: &[Place],
    size: u32,
) -> Result<Vec<Stretch>, AllocError> {
    let mut stretches = Vec::new(alloc);
    for opening in row {
        let Opening { block, place } = *opening;
        let len = len_in(*opening, places, size);
        stretches.push(Stretch { block, place, len })?;
    }
    Ok(stretches)
}

/// How many bytes some stretches have.
pub fn count_of(stretches: &[Stretch]) -> usize {
    stretches
        .iter()
        .fold(0usize, |sum, it| sum.wrapping_add(it.len as usize))
}

/// Which byte of those that went out lies at a place of a block.
pub fn index_of(stretches: &[Stretch], place: &Place, size: u32) -> Option<usize> {
    let mut before = 0usize;
    for stretch in stretches {
        if place.addr / size.max(1) == stretch.block {
            let index = (place.addr % size.max(1)).checked_sub(stretch.place)?;
            return before.checked_add(index as usize);
        }
        before = before.wrapping_add(stretch.len as usize);
    }
    None
}

/// Whether a stretch lies in a block from one on, and within it.
fn is_stretch(stretch: &Stretch, flash: Flash, from: u32) -> bool
    ensures above { result ≡ true → from ≤ stretch.now.block }
    ensures below { result ≡ true → stretch.now.block < flash.blocks }
    ensures within { result ≡ true
        → stretch.now.place + stretch.now.len ≤ flash.geometry.block }
{
    match stretch.place.checked_add(stretch.len) {
        Some(end) => {
            from <= stretch.block && stretch.block < flash.blocks && end <= flash.geometry.block
        }
        None => false,
    }
}

/// Whether these are stretches of a flash.
fn are_stretches(stretches: &[Stretch], flash: Flash) -> bool
    ensures { result ≡ true → AreStretches flash.geometry.block 0 flash.blocks stretches.now }
{
    let mut from = 0;
    for stretch in stretches {
        if !is_stretch(stretch, flash, from) {
            return false;
        }
        from = stretch.block + 1;
    }
    true
}

/// The image after these bytes went out to its openings.
pub fn left_after(
    alloc: Global,
    image: &[u8],
    flash: Flash,
    stretches: &[Stretch],
    written: &[u8],
) -> Result<Vec<u8>, Fail>
    requires readable { is_block_size flash.geometry.block ≡ true }
    requires small { flash.blocks * flash.geometry.block ≤ greatest_image }
{
    if !are_stretches(stretches, flash) {
        return Err(Fail::from("no stretches"));
    }
    let Flash {
        geometry,
        blocks,
        ..
    } = flash;
    let on_flash = StretchesOnFlash {
        geometry,
        blocks,
        stretches,
    };
    let len = len_with_stretches(&on_flash, image, written);
    let mut sink = Taker::new(alloc);
    put_with_stretches(&mut sink, &on_flash, image, written, len)?;
    Ok(sink.bytes)
}

/// Whether each byte of an image that is not erased is kept.
pub fn is_kept(image: &[u8], left: &[u8]) -> bool {
    image.len() <= left.len()
        && image
            .iter()
            .zip(left.iter())
            .all(|(before, after)| *before == 0xFF || before == after)
}
