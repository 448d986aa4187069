//! Images with blank blocks, and what is left of them where writing stopped.

ghost use Rattle.std.specs.Prelude.{◌≡◌, ◌≤◌, ◌*◌, true};
ghost use Rattle.jscan.specs.Image.{is_block_size, greatest_image};

use jlog::Flash;
use jnode::Order;
use jrow::{Row, RowOnFlash, put_with_row, written_len};
use jscan::GREATEST_IMAGE;
use std::alloc::{AllocError, Global};
use std::test::Fail;
use test_support::Taker;

/// Which block of a flash of so many has a base, and which have zeros, that are no node.
#[derive(Clone, Copy, Debug)]
pub struct Ground {
    pub base: u32,
    pub zeros: &'static [u32],
    pub blocks: u32,
}

/// Blank blocks before and behind the base.
pub const AROUND: Ground = Ground {
    base: 2,
    zeros: &[],
    blocks: 4,
};

/// Blank blocks that are no neighbours.
pub const APART: Ground = Ground {
    base: 0,
    zeros: &[2],
    blocks: 4,
};

/// Blank blocks before the base alone, on a flash that it fills to its end.
pub const BEFORE: Ground = Ground {
    base: 3,
    zeros: &[0],
    blocks: 4,
};

impl Ground {
    /// This flash with as many blocks as the ground has.
    pub fn flash(&self, flash: Flash) -> Flash {
        Flash {
            blocks: self.blocks,
            ..flash
        }
    }

    /// The image in blocks of this size.
    pub fn image(&self, alloc: Global, block: u32, base: &[u8]) -> Result<Vec<u8>, AllocError> {
        let mut image = Vec::new(alloc);
        for number in 0..self.blocks {
            let front: &[u8] = if number == self.base {
                base
            } else if self.zeros.contains(&number) {
                &[0; 4]
            } else {
                &[]
            };
            if !front.is_empty() {
                image.resize((number as usize).wrapping_mul(block as usize), 0xFF)?;
                image.extend_from_slice(front)?;
            }
        }
        Ok(image)
    }

    /// How many of its blocks are not blank.
    pub fn taken(&self, base: &[u8]) -> usize {
        let zeros = self.zeros.len();
        if base.is_empty() {
            zeros
        } else {
            zeros.wrapping_add(1)
        }
    }
}

/// Whether a flash is one in which rows are found.
pub fn has_rows(flash: Flash) -> bool
    ensures readable { result ≡ true → is_block_size flash.geometry.block ≡ true }
    ensures small { result ≡ true → flash.blocks * flash.geometry.block ≤ greatest_image }
{
    match flash.blocks.checked_mul(flash.geometry.block) {
        Some(len) => flash.geometry.is_readable() && len as usize <= GREATEST_IMAGE,
        None => false,
    }
}

/// The image after these bytes went out to its row.
pub fn left_after<E: Order>(
    alloc: Global,
    image: &[u8],
    flash: Flash,
    written: &[u8],
) -> Result<Vec<u8>, Fail>
    requires readable { is_block_size flash.geometry.block ≡ true }
    requires small { flash.blocks * flash.geometry.block ≤ greatest_image }
{
    let Flash {
        geometry,
        blocks,
        ..
    } = flash;
    let row = Row::of::<E>(alloc, image, geometry, blocks)?;
    let room = row
        .len()
        .checked_mul(geometry.block as usize)
        .ok_or("no row")?;
    if room < written.len() {
        return Err(Fail::from("no room"));
    }
    let flash = RowOnFlash {
        geometry,
        blocks,
        row: &row,
    };
    let len = written_len(&flash, image, written);
    let mut sink = Taker::new(alloc);
    put_with_row(&mut sink, &flash, image, written, len)?;
    Ok(sink.bytes)
}
