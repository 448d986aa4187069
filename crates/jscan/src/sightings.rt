//! The nodes' tiles of an image, in order.

use crate::extent::{Extent, ExtentKind};
use crate::geometry::{Geometry, ScanFault};
use crate::image::ImageExtents;
use jnode::{Order, Seen};

/// The nodes' tiles of an image, in the order of their addresses: the address of each, and what it
/// is seen as. The missing tail of the last block counts as erased. It takes no memory.
#[derive(Drop)]
pub struct Sightings<'a, E: Order> {
    extents: ImageExtents<'a, E>,
}

impl<'a, E: Order> Sightings<'a, E> {
    ghost use Rattle.std.specs.Prelude.{◌≡◌, ◌↔◌, ◌<◌, Err, IfOk, IfErr, OnOk, false, true, length};
    ghost use Rattle.jscan.specs.Image.{is_block_size, greatest_image, sightings};
    ghost use Rattle.jscan.specs.Scans.{IsScannable, IsUnread};
    ghost use Rattle.jscan.specs.SightingsLeft.{sightings_left};

    /// The sightings of an image.
    pub fn new(image: &'a [u8], geometry: Geometry) -> Result<Self, ScanFault>
        ensures block_size { result ≡ Err ScanFault.BlockSize
            ↔ (is_block_size geometry.block ≡ false) }
        ensures too_large { result ≡ Err ScanFault.TooLarge ↔ (is_block_size geometry.block ≡ true)
            × (greatest_image < length image.now) }
        ensures no_other { IfErr result IsUnread }
        ensures scannable { OnOk result (IsScannable geometry.block image.now) }
        ensures sightings { IfOk result
            (λ left. sightings_left left ≡ sightings E.order geometry.block image.now) }
    {
        Ok(Sightings {
            extents: ImageExtents::new(image, geometry)?,
        })
    }
}

impl<'a, E: Order> Iterator for Sightings<'a, E> {
    ghost use Rattle.std.specs.Iterator.{YieldsFirst, item_count};
    ghost use Rattle.jscan.specs.SightingsLeft.{sightings_left};

    type Item = (u32, Seen<'a>);

    ghost next_gives = { YieldsFirst sightings_left };

    ghost remaining = { item_count sightings_left };

    fn next(&mut self) -> Option<(u32, Seen<'a>)> {
        while let Some(Extent { addr, kind, .. }) = self.extents.next() {
            if let ExtentKind::Tiled(seen) = kind {
                return Some((addr, seen));
            }
        }
        None
    }
}
