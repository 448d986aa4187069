//! What one extent says of the size of blocks.

ghost use Rattle.std.specs.Prelude.{◌≡◌, ◌+◌, ◌<◌, ◌^◌, ◌&&◌, ℕ, max, nat_le};
ghost use Rattle.std.specs.Int.{IsGcd};
ghost use Rattle.std.specs.List.{position, position_or_len};
ghost use Rattle.jinfo.specs.BlockSizes.{block_sizes, is_later_marker, is_multiple, lies_within, marker_begins, node_has_room, node_lies_within};

use crate::kinds::{is_marker, is_node};
use jscan::Extent;

/// The powers of two that a block's size may be.
pub(crate) const POWERS: [u32; 11] = [
    4096, 8192, 16384, 32768, 65536, 131_072, 262_144, 524_288, 1_048_576, 2_097_152, 4_194_304,
];

/// From the least to the greatest size, in bytes, that the blocks of an image may have.
#[derive(Clone, Copy, Debug, PartialEq, Eq)]
pub struct SizeRange {
    pub least: u32,
    pub greatest: u32,
}

/// Whether bytes contain no multiple of the size past the first of them.
#[tactic(auto, unfolding(crate::specs::BlockSizes::lies_within))]
fn lies_within(addr: u32, len: u32, size: u32) -> bool
    ensures { result ≡ lies_within addr len size }
{
    let blocks = addr.checked_div(size).unwrap_or(0);
    let next = (u64::from(blocks) + 1) * u64::from(size);
    u64::from(addr) + u64::from(len) <= next
}

#[tactic(auto, unfolding(crate::specs::BlockSizes::is_multiple))]
pub(crate) fn is_multiple(addr: u32, size: u32) -> bool
    ensures { result ≡ is_multiple addr size }
{
    addr.is_multiple_of(size)
}

/// The place of the first of the sizes within whose blocks these bytes lie.
fn first_within(sizes: &[u32], addr: u32, len: u32) -> Option<usize>
    ensures { result ≡ position (lies_within addr len) sizes.now }
{
    sizes.iter().position(|size| lies_within(addr, len, *size))
}

/// How many of the sizes are too small for these bytes.
#[tactic(auto, using(crate::proofs::FirstLemmas::place_found, crate::proofs::FirstLemmas::no_place))]
fn too_small_of(sizes: &[u32], addr: u32, len: u32) -> usize
    ensures { result ≡ position_or_len (lies_within addr len) sizes.now }
{
    match first_within(sizes, addr, len) {
        Some(place) => place,
        None => sizes.len(),
    }
}

/// How many of the powers of two are too small for an extent that has to lie within one block.
pub(crate) fn too_small_for(extent: &Extent<'_>) -> usize
    ensures { result ≡ position_or_len (λ size. node_lies_within size extent.now) block_sizes }
{
    if is_node(&extent.kind) {
        too_small_of(&POWERS, extent.addr, extent.len)
    } else {
        0
    }
}

/// The longer of two lengths, where the second is an extent's that has to lie within one block.
pub(crate) fn longest_with(longest: u32, extent: &Extent<'_>) -> u32
    ensures { (size : ℕ) → nat_le result size
        ≡ (nat_le longest size && node_has_room size extent.now) }
{
    if is_node(&extent.kind) {
        longest.max(extent.len)
    } else {
        longest
    }
}

/// The greatest common divisor of two numbers, by Euclid's algorithm.
fn common_divisor(first: u32, second: u32) -> u32
    ensures { IsGcd first second result }
{
    let mut divisor = first;
    let mut rest = second;
    while rest != 0 {
        let next = divisor % rest;
        divisor = rest;
        rest = next;
    }
    divisor
}

/// The greatest common divisor of a number and the address of an extent, if that is a clean marker.
pub(crate) fn common_with(common: u32, extent: &Extent<'_>) -> u32
    ensures { (size : ℕ) → is_multiple result size
        ≡ (is_multiple common size && marker_begins size extent.now) }
{
    if is_marker(&extent.kind) {
        common_divisor(common, extent.addr)
    } else {
        common
    }
}

/// Whether it is a clean marker past address 0.
pub(crate) fn is_later_marker(extent: &Extent<'_>) -> bool
    ensures { result ≡ is_later_marker extent.now }
{
    is_marker(&extent.kind) && 0 < extent.addr
}
