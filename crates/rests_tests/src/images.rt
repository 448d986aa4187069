//! How images are written down, block by block.

use jrests::Opening;
use jscan::Geometry;
use std::alloc::{AllocError, Global};

pub const GEOMETRY: Geometry = Geometry { block: 8192 };

/// The clean marker in little order, and an entry of 41 bytes: parent 1, version 1, object 2, type
/// 8, name `a`. The tiles end at 56.
pub const MARKED: &[u8] = b"\x85\x19\x03\x20\x0c\0\0\0\xb1\xb0\x1e\xe4\
    \x85\x19\x01\xe0\x29\0\0\0\x6d\xa6\x2f\xd7\x01\0\0\0\x01\0\0\0\x02\0\0\0\0\0\0\0\x01\x08\0\0\
    \x95\x02\x9b\x91\xce\x51\xb5\x3a\x61";

/// The entry with no marker before it: its tile ends at 44.
pub const UNMARKED: &[u8] = b"\x85\x19\x01\xe0\x29\0\0\0\x6d\xa6\x2f\xd7\x01\0\0\0\x01\0\0\0\
    \x02\0\0\0\0\0\0\0\x01\x08\0\0\x95\x02\x9b\x91\xce\x51\xb5\x3a\x61";

/// The entry twice, the second behind three erased bytes that fill the first up.
pub const TWICE: &[u8] = b"\x85\x19\x01\xe0\x29\0\0\0\x6d\xa6\x2f\xd7\x01\0\0\0\x01\0\0\0\
    \x02\0\0\0\0\0\0\0\x01\x08\0\0\x95\x02\x9b\x91\xce\x51\xb5\x3a\x61\xFF\xFF\xFF\
    \x85\x19\x01\xe0\x29\0\0\0\x6d\xa6\x2f\xd7\x01\0\0\0\x01\0\0\0\
    \x02\0\0\0\0\0\0\0\x01\x08\0\0\x95\x02\x9b\x91\xce\x51\xb5\x3a\x61";

/// The entry with another name than its checksum is of.
pub const DAMAGED: &[u8] = b"\x85\x19\x01\xe0\x29\0\0\0\x6d\xa6\x2f\xd7\x01\0\0\0\x01\0\0\0\
    \x02\0\0\0\0\0\0\0\x01\x08\0\0\x95\x02\x9b\x91\xce\x51\xb5\x3a\x62";

/// A beginning of the entry, and erased bytes.
pub const TORN: &[u8] = b"\x85\x19\x01\xe0\x29\0\0\0\x6d\xa6\x2f\xd7\x01\0\0\0\x01\0\0\0";

/// An image of which each block begins with these bytes, and has none after them. Of the last one
/// the rest is missing.
pub fn image_of(alloc: Global, fronts: &[&[u8]]) -> Result<Vec<u8>, AllocError> {
    let mut image = Vec::new(alloc);
    for (index, front) in fronts.iter().enumerate() {
        image.resize(index.wrapping_mul(8192), 0xFF)?;
        image.extend_from_slice(front)?;
    }
    Ok(image)
}

/// Whether these are the openings, of these blocks and at these places in them.
pub fn is_same(found: &[Opening], blocks: &[u32], places: &[u32]) -> bool {
    found.len() == blocks.len()
        && found
            .iter()
            .zip(blocks.iter())
            .all(|(it, block)| it.block == *block)
        && found
            .iter()
            .zip(places.iter())
            .all(|(it, place)| it.place == *place)
}
