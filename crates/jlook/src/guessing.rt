//! What a look may want, guessed by the nodes alone.

use crate::chosen::SYMLINK_BITS;
use crate::sighted::Sighted;
use jmount::type_bits;
use jnode::Seen;
use std::alloc::{AllocError, Global};
use std::collections::BTreeSet;

/// The numbers of which an uncompressed node says that they are symlinks: of a usual image exactly
/// these are.
pub(crate) fn likely_symlinks(
    alloc: Global,
    sighted: &Sighted<'_>,
) -> Result<BTreeSet<u32>, AllocError> {
    let mut numbers = BTreeSet::new(alloc);
    for tile in &sighted.tiles {
        if let Seen::Inode(node) = &tile.1 {
            if type_bits(node.mode) == SYMLINK_BITS {
                numbers.insert(node.ino)?;
            }
        }
    }
    Ok(numbers)
}
