//! The extents of an image, block by block.

ghost use Rattle.std.specs.Prelude.{◌≡◌, ◌≤◌, true, length};
ghost use Rattle.jscan.specs.Image.{is_block_size, greatest_image, block_count};

use crate::extent::Extent;
use crate::extents::Extents;
use crate::geometry::{GREATEST_IMAGE, Geometry, ScanFault};
use crate::parts::block_at;
use jnode::Order;

/// The extents of an image from a place on, block by block. The missing tail of the last block
/// counts as erased. It takes no memory.
#[derive(Drop)]
pub struct ImageExtents<'a, E: Order> {
    image: &'a [u8],
    size: u32,
    /// The number of the block after this one, and where it begins.
    next: u32,
    block: Extents<'a, E>,
    ghost within: { length image.now ≤ greatest_image },
    ghost readable: { is_block_size size ≡ true },
    ghost block_within: { next ≤ block_count size image.now },
}

impl<'a, E: Order> ImageExtents<'a, E> {
    ghost use Rattle.std.specs.Prelude.{◌≡◌, ◌↔◌, ◌<◌, [], Err, IfOk, IfErr, OnOk, false, true, length};
    ghost use Rattle.jscan.specs.Image.{is_block_size, greatest_image};
    ghost use Rattle.jscan.specs.Scans.{IsScannable, IsUnread, image_extents};
    ghost use Rattle.jscan.specs.ImageLeft.{image_left, blocks_left};
    ghost use Rattle.jscan.specs.ExtentsLeft.{extents_left};

    /// The extents of an image.
    pub fn new(image: &'a [u8], geometry: Geometry) -> Result<Self, ScanFault>
        ensures block_size { result ≡ Err ScanFault.BlockSize
            ↔ (is_block_size geometry.block ≡ false) }
        ensures too_large { result ≡ Err ScanFault.TooLarge ↔ (is_block_size geometry.block ≡ true)
            × (greatest_image < length image.now) }
        ensures no_other { IfErr result IsUnread }
        ensures scannable { OnOk result (IsScannable geometry.block image.now) }
        ensures extents { IfOk result
            (λ left. image_left left ≡ image_extents E.order geometry.block image.now) }
    {
        if !geometry.is_readable() {
            return Err(ScanFault::BlockSize);
        }
        if GREATEST_IMAGE < image.len() {
            return Err(ScanFault::TooLarge);
        }
        Ok(ImageExtents {
            image,
            size: geometry.block,
            next: 0,
            block: Extents::new(0, &[]),
        })
    }

    /// Goes on to the next block, if there is one.
    fn advance(&mut self) -> bool
        requires done { extents_left self.old.block ≡ [] }
        ensures left { image_left self.new ≡ image_left self.old }
        ensures ends { result ≡ false → image_left self.new ≡ [] }
        ensures nearer { result ≡ true → blocks_left self.new < blocks_left self.old }
    {
        let start = self.next * self.size;
        if self.image.len() <= start as usize {
            return false;
        }
        self.block = Extents::of_part(
            start,
            block_at(self.image, start as usize, self.size as usize),
        );
        self.next += 1;
        true
    }
}

impl<'a, E: Order> Iterator for ImageExtents<'a, E> {
    ghost use Rattle.std.specs.Iterator.{YieldsFirst, item_count};
    ghost use Rattle.jscan.specs.ImageLeft.{image_left};

    type Item = Extent<'a>;

    ghost next_gives = { YieldsFirst image_left };

    ghost remaining = { item_count image_left };

    fn next(&mut self) -> Option<Extent<'a>> {
        loop {
            if let Some(extent) = self.block.next() {
                return Some(extent);
            }
            if !self.advance() {
                return None;
            }
        }
    }
}
