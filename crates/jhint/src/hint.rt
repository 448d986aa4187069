//! The byte order and the block size that an image shows.
ghost use Rattle.std.specs.Prelude.{◌≡◌};
ghost use Rattle.jhint.specs.Hints.{hint_in, hint_of, is_same_order, may_have, size_to_read};

use jinfo::{Info, SizeRange, info_of};
use jnode::Endian;
use jscan::GREATEST_IMAGE;

/// The byte order that an image shows, and a size of blocks, in bytes, that serves to read it.
#[derive(Clone, Copy, Debug, PartialEq, Eq)]
pub struct Hint {
    pub order: Endian,
    pub block: u32,
}

/// The size of blocks that serves to read an image, in bytes: the greatest that fits it, or
/// 4194304 if nothing tells.
pub fn size_to_read(sizes: Option<SizeRange>) -> u32
    ensures { result ≡ size_to_read sizes }
{
    match sizes {
        Some(range) => range.greatest,
        None => 4_194_304,
    }
}

/// Whether blocks of this size fit, as far as anything tells.
fn may_have(sizes: Option<SizeRange>, block: u32) -> bool
    ensures { result ≡ may_have sizes block }
{
    match sizes {
        Some(range) => range.least <= block && block <= range.greatest,
        None => true,
    }
}

fn is_same_order(found: Endian, order: Endian) -> bool
    ensures { result ≡ is_same_order found order }
{
    match (found, order) {
        (Endian::Little, Endian::Little) | (Endian::Big, Endian::Big) => true,
        (Endian::Little, Endian::Big) | (Endian::Big, Endian::Little) => false,
    }
}

/// What an image shows that tells this.
fn hint_in(order: Endian, block: u32, info: &Info) -> Option<Hint>
    ensures { result ≡ hint_in order block info.now }
{
    let found = info.order?;
    let sizes = info.census.sizes;
    if is_same_order(found, order) && may_have(sizes, block) {
        return None;
    }
    Some(Hint {
        order: found,
        block: size_to_read(sizes),
    })
}

/// What an image shows that was read in this order and in blocks of so many bytes: nothing if no
/// node is found in it, if it has that order and may have that size, or if it is longer than
/// `jscan::GREATEST_IMAGE`. It takes no memory, and time linear in the bytes.
#[tactic(auto, unfolding(crate::specs::Hints::hint_of))]
pub fn hint_of(order: Endian, block: u32, image: &[u8]) -> Option<Hint>
    ensures { result ≡ hint_of order block image.now }
{
    if image.len() > GREATEST_IMAGE {
        return None;
    }
    hint_in(order, block, &info_of(image))
}
