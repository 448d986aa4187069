//! The openings of an image that are taken.

ghost use Rattle.std.specs.Prelude.{◌≡◌, ◌*◌, ◌≤◌, true, IfOk, map, take};
ghost use Rattle.jscan.specs.Image.{is_block_size, greatest_image};
ghost use Rattle.jrow.specs.Row.{blank_blocks};
ghost use Rattle.jopenings.specs.After.{fronts};
ghost use Rattle.jdevice.specs.Taken.{openings_taken};

use jnode::Order;
use jrests::{Opening, openings_of};
use jrow::Row;
use jscan::Geometry;
use std::alloc::{AllocError, Global};

/// Openings that begin with these blocks.
fn fronts_of(alloc: Global, blocks: &[u32]) -> Result<Vec<Opening>, AllocError>
    ensures { IfOk result (λ row. row.items ≡ fronts blocks.now) }
{
    let mut row = Vec::with_capacity(alloc, blocks.len())?;
    for block in blocks {
        row.push(Opening {
            block: *block,
            place: 0,
        })?;
    }
    Ok(row)
}

/// Those of the blank blocks of an image.
fn fronts_in<E: Order>(
    alloc: Global,
    image: &[u8],
    geometry: Geometry,
    blocks: u32,
) -> Result<Vec<Opening>, AllocError>
    requires readable { is_block_size geometry.block ≡ true }
    requires small { blocks * geometry.block ≤ greatest_image }
    ensures { IfOk result (λ row.
        row.items ≡ fronts (blank_blocks E.order geometry.block blocks image.now)) }
{
    let blank = Row::of::<E>(alloc, image, geometry, blocks)?;
    fronts_of(alloc, blank.as_slice())
}

/// The openings of an image that are taken on a flash of so many blocks: its blank blocks and, with
/// `tail`, the rests of its begun ones.
pub fn openings_taken<E: Order>(
    alloc: Global,
    image: &[u8],
    geometry: Geometry,
    blocks: u32,
    tail: bool,
) -> Result<Vec<Opening>, AllocError>
    requires readable { is_block_size geometry.block ≡ true }
    requires small { blocks * geometry.block ≤ greatest_image }
    ensures { IfOk result (λ row.
        row.items ≡ openings_taken tail E.order geometry.block blocks image.now) }
{
    if tail {
        openings_of::<E>(alloc, image, geometry, blocks)
    } else {
        fronts_in::<E>(alloc, image, geometry, blocks)
    }
}
