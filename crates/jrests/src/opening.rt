//! The openings of an image, found block by block.

ghost use Rattle.std.specs.Prelude.{◌≡◌, ◌*◌, ◌%◌, ◌++◌, ◌<◌, ◌≤◌, ◌^◌, [], true, IfOk, length};
ghost use Rattle.std.specs.List.{cons_option};
ghost use Rattle.jscan.specs.Extents.{extents};
ghost use Rattle.jscan.specs.Image.{is_block_size, greatest_image, block_of};
ghost use Rattle.jrests.specs.Begun.{is_damaged, clear_last, rest_of};
ghost use Rattle.jrests.specs.Openings.{opening_at, opening_in, openings, rests};

use flashbase::Part;
use jnode::{Order, Seen};
use jrow::{block_part, is_blank_block};
use jscan::{ExtentKind, Extents, Geometry};
use std::alloc::{AllocError, Global};

/// Where a block of a flash may be written: from its front on if it is blank, and behind its last
/// node if it is begun.
#[derive(Clone, Copy, Debug, PartialEq, Eq)]
pub struct Opening {
    /// The number of the block.
    pub block: u32,
    /// Bytes of the block in front of it.
    pub place: u32,
}

fn is_damaged(seen: &Seen<'_>) -> bool
    ensures { result ≡ is_damaged seen.now }
{
    matches!(seen, Seen::Damaged { .. })
}

/// Where the last extent of a block begins, if it is erased, and all before it are nodes that are
/// not damaged.
fn clear_last<E: Order>(block: Part<'_>) -> Option<u32>
    requires words { length block % 4 ≡ 0 }
    requires small { length block < 2 ^ 32 }
    ensures { result ≡ clear_last (extents E.order 0 block.entry) }
{
    let mut extents = Extents::<E>::of_part(0, block);
    while let Some(extent) = extents.next() {
        match extent.kind {
            ExtentKind::Tiled(seen) if !is_damaged(&seen) => {}
            ExtentKind::Erased if extents.next().is_none() => return Some(extent.addr),
            _ => return None,
        }
    }
    None
}

/// Where the rest of a block begins in it.
fn rest_in<E: Order>(image: &[u8], geometry: Geometry, block: u32) -> Option<u32>
    requires readable { is_block_size geometry.block ≡ true }
    requires small { block * geometry.block < greatest_image }
    ensures { result ≡ rest_of E.order geometry.block (block_of geometry.block image.now block) }
{
    if is_blank_block::<E>(image, geometry, block) {
        return None;
    }
    clear_last::<E>(block_part(image, geometry, block))
}

/// Where writing may begin in a block.
fn opening_in<E: Order>(image: &[u8], geometry: Geometry, block: u32) -> Option<u32>
    requires readable { is_block_size geometry.block ≡ true }
    requires small { block * geometry.block < greatest_image }
    ensures { result ≡ opening_in E.order geometry.block
        (block_of geometry.block image.now block) }
{
    if is_blank_block::<E>(image, geometry, block) {
        return Some(0);
    }
    rest_in::<E>(image, geometry, block)
}

/// Notes the opening of a block, if it has one.
fn note(found: &mut Vec<Opening>, block: u32, place: Option<u32>) -> Result<(), AllocError>
    ensures { IfOk result (λ _.
        found.new.items ≡ found.old.items ++ cons_option (opening_at block place) []) }
{
    if let Some(place) = place {
        found.push(Opening { block, place })?;
    }
    Ok(())
}

/// The openings of an image on a flash of so many blocks, in the order of their blocks: each blank
/// block, and the rest of each begun one that has a rest.
pub fn openings_of<E: Order>(
    alloc: Global,
    image: &[u8],
    geometry: Geometry,
    blocks: u32,
) -> Result<Vec<Opening>, AllocError>
    requires readable { is_block_size geometry.block ≡ true }
    requires small { blocks * geometry.block ≤ greatest_image }
    ensures { IfOk result (λ found.
        found.items ≡ openings E.order geometry.block blocks image.now) }
{
    let mut found = Vec::new(alloc);
    for block in 0..blocks {
        note(&mut found, block, opening_in::<E>(image, geometry, block))?;
    }
    Ok(found)
}

/// The rests of an image's begun blocks alone, in the order of these.
pub fn rests_of<E: Order>(
    alloc: Global,
    image: &[u8],
    geometry: Geometry,
    blocks: u32,
) -> Result<Vec<Opening>, AllocError>
    requires readable { is_block_size geometry.block ≡ true }
    requires small { blocks * geometry.block ≤ greatest_image }
    ensures { IfOk result (λ found.
        found.items ≡ rests E.order geometry.block blocks image.now) }
{
    let mut found = Vec::new(alloc);
    for block in 0..blocks {
        note(&mut found, block, rest_in::<E>(image, geometry, block))?;
    }
    Ok(found)
}
