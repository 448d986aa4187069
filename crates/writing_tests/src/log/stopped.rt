//! What a log leaves on the flash where writing stops.

use jlog::Place;
use jnode::{Order, marker_bytes};

/// A log that was written whole, onto a flash of one or two blocks.
#[derive(Drop)]
pub struct Log {
    /// The flash up to the end of what was put.
    pub bytes: Vec<u8>,
    /// Where writing began.
    pub from: usize,
    /// The length of a block, and of the flash.
    pub block: usize,
    pub flash: usize,
    pub places: Vec<Place>,
}

/// Writes the first `len` bytes of the clean marker at the start of a block.
fn mark<E: Order>(image: &mut [u8], start: usize, len: usize) {
    let marker = marker_bytes::<E>();
    for (byte, wanted) in image.iter_mut().skip(start).zip(marker.iter().take(len)) {
        *byte = *wanted;
    }
}

impl Log {
    /// Makes the image that is left where the flash was written up to `end`. A block that was not
    /// written past its marker holds as much of the marker as `markers` says, or as went out if
    /// that is more.
    pub fn leave<E: Order>(
        &self,
        image: &mut Vec<u8>,
        end: usize,
        markers: (usize, usize),
    ) -> Option<()> {
        image.clear();
        image.extend_from_slice(self.bytes.get(..end)?).ok()?;
        image.resize(self.flash, 0xFF).ok()?;
        for (start, len) in [(0usize, markers.0), (self.block, markers.1)] {
            if self.from <= start
                && end <= start.saturating_add(12)
                && end.saturating_sub(start) <= len
            {
                mark::<E>(image, start, len);
            }
        }
        Some(())
    }

    /// How many nodes are whole in an image.
    pub fn count_whole(&self, image: &[u8]) -> usize {
        let mut count: usize = 0;
        for place in &self.places {
            let start = place.addr as usize;
            let end = start.wrapping_add(place.totlen as usize);
            if image.get(start..end).is_some()
                && image.get(start..end) == self.bytes.get(start..end)
            {
                count = count.wrapping_add(1);
            }
        }
        count
    }
}
