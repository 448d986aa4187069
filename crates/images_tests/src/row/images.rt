//! How images are written down, block by block.

use jscan::Geometry;
use std::alloc::{AllocError, Global};

pub const GEOMETRY: Geometry = Geometry { block: 8192 };

/// A node in the third of four blocks: the row is 0, 1 and 3.
pub const THIRD_TAKEN: &[&[u8]] = &[b"", b"", MARKER_AND_ENTRY];

/// The clean marker in little order, and an entry of 41 bytes: parent 1, version 1, object 2, type
/// 8, name `a`.
pub const MARKER_AND_ENTRY: &[u8] = b"\x85\x19\x03\x20\x0c\0\0\0\xb1\xb0\x1e\xe4\
    \x85\x19\x01\xe0\x29\0\0\0\x6d\xa6\x2f\xd7\x01\0\0\0\x01\0\0\0\x02\0\0\0\0\0\0\0\x01\x08\0\0\
    \x95\x02\x9b\x91\xce\x51\xb5\x3a\x61";

/// An image of which each block begins with these bytes, and has none after them. Of the last one
/// the rest is missing.
pub fn image_of(alloc: Global, fronts: &[&[u8]]) -> Result<Vec<u8>, AllocError> {
    let mut image = Vec::new(alloc);
    for (index, front) in fronts.iter().enumerate() {
        image.resize(index.wrapping_mul(8192), 0xFF)?;
        image.extend_from_slice(front)?;
    }
    Ok(image)
}
