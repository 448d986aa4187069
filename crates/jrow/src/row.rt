//! The row of an image, found and asked for addresses.

ghost use Rattle.std.specs.Prelude.{◌≡◌, ◌==◌, ◌+◌, ◌*◌, ◌<◌, ◌≤◌, true, IfOk, AllPairs, length, slice_get};
ghost use Rattle.jscan.specs.Blank.{is_blank};
ghost use Rattle.jscan.specs.Image.{is_block_size, greatest_image, block_of};
ghost use Rattle.jrow.specs.Row.{blank_blocks, address_in, IsRowOf, start_of_row, address_of};
ghost use Rattle.jrow.specs.RowLeft.{index_in};

use flashbase::Part;
use jnode::Order;
use jscan::{Geometry, blank_from, block_at};
use std::alloc::{AllocError, Global};
use std::marker::Model;

/// A block of an image. What the image lacks counts as erased, and a block past its end too.
pub fn block_part(image: &[u8], geometry: Geometry, block: u32) -> Part<'_>
    requires readable { is_block_size geometry.block ≡ true }
    requires small { block * geometry.block < greatest_image }
    ensures { result ≡ block_of geometry.block image.now block }
{
    let size = geometry.block as usize;
    let start = block as usize * size;
    if start <= image.len() {
        block_at(image, start, size)
    } else {
        Part::new(&[], size)
    }
}

/// Whether a block of an image is blank.
pub fn is_blank_block<E: Order>(image: &[u8], geometry: Geometry, block: u32) -> bool
    requires readable { is_block_size geometry.block ≡ true }
    requires small { block * geometry.block < greatest_image }
    ensures { result ≡ is_blank E.order geometry.block (block_of geometry.block image.now block) }
{
    let part = block_part(image, geometry, block);
    blank_from::<E>(part.present(), geometry, 1) == 0
}

/// The numbers of some blocks of a flash, upwards: those that are blank in an image.
#[derive(Drop)]
pub struct Row {
    blocks: Vec<u32>,
}

impl Model for Row {
    ghost use Rattle.std.specs.Prelude.{ℕ, List};

    ghost Value = { List ℕ };

    ghost view = { λ row. row.blocks.items };
}

impl Row {
    /// The blank blocks of an image, on a flash of so many blocks.
    pub fn of<E: Order>(
        alloc: Global,
        image: &[u8],
        geometry: Geometry,
        blocks: u32,
    ) -> Result<Row, AllocError>
        requires readable { is_block_size geometry.block ≡ true }
        requires small { blocks * geometry.block ≤ greatest_image }
        ensures blank { IfOk result
            (λ row. row ≡ blank_blocks E.order geometry.block blocks image.now) }
        ensures row { IfOk result (λ row. IsRowOf blocks row) }
    {
        let mut row = Vec::new(alloc);
        for block in 0..blocks {
            if is_blank_block::<E>(image, geometry, block) {
                row.push(block)?;
            }
        }
        Ok(Row { blocks: row })
    }

    /// How many blocks it has.
    pub fn len(&self) -> usize
        ensures { result ≡ length self.now }
    {
        self.blocks.len()
    }

    pub fn is_empty(&self) -> bool
        ensures { result ≡ (length self.now == 0) }
    {
        self.blocks.is_empty()
    }

    pub fn as_slice(&self) -> &[u32]
        ensures { result.now ≡ self.now }
    {
        self.blocks.as_slice()
    }

    /// The block at an index.
    pub fn get(&self, index: usize) -> Option<u32>
        ensures { result ≡ slice_get self.now index }
    {
        self.blocks.get(index).copied()
    }

    /// Where a block stands in the row.
    pub(crate) fn index_of(&self, block: u32) -> Option<usize>
        requires { AllPairs (λ a b. a < b) self.now }
        ensures { result ≡ index_in self.now block }
    {
        self.blocks.binary_search(&block).ok()
    }

    /// Where the row begins on the flash with its blocks last.
    pub fn start(&self, geometry: Geometry, blocks: u32) -> u32
        requires small { blocks * geometry.block ≤ greatest_image }
        requires row { IsRowOf blocks self.now }
        ensures { result ≡ start_of_row geometry.block blocks self.now }
    {
        (blocks - self.len() as u32) * geometry.block
    }

    /// Where on the flash an address of the row lies.
    pub(crate) fn address_in(&self, geometry: Geometry, blocks: u32, at: u32) -> u32
        requires small { blocks * geometry.block ≤ greatest_image }
        requires row { IsRowOf blocks self.now }
        requires inside { at < length self.now * geometry.block }
        ensures { result ≡ address_in geometry.block self.now at }
    {
        self.blocks[(at / geometry.block) as usize] * geometry.block + at % geometry.block
    }

    /// Where on the flash an address of the flash with the blocks of the row last lies, if it is
    /// one of these blocks'.
    pub fn address(&self, geometry: Geometry, blocks: u32, at: u32) -> Option<u32>
        requires small { blocks * geometry.block ≤ greatest_image }
        requires row { IsRowOf blocks self.now }
        ensures { result ≡ address_of geometry.block blocks self.now at }
    {
        let start = self.start(geometry, blocks);
        if start <= at && at < blocks * geometry.block {
            Some(self.address_in(geometry, blocks, at - start))
        } else {
            None
        }
    }
}
