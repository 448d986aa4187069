//! What all extents of an image say of the size of its blocks.

ghost use Rattle.std.specs.Prelude.{◌≡◌, ◌+◌, ◌-◌, ◌*◌, ◌<◌, ◌≤◌, ◌^◌, ℕ, false, take};
ghost use Rattle.std.specs.List.{list_any};
ghost use Rattle.jinfo.specs.BlockSizes.{greatest_passing, is_among, is_multiple, least_passing, range_between};
ghost use Rattle.jinfo.specs.Marks.{MarksWith, may_be_by, no_marks, range_of_marks};

use crate::kinds::{is_marker, one_if};
use crate::sizes::{
    POWERS, SizeRange, common_with, is_later_marker, is_multiple, longest_with, too_small_for,
};
use jscan::{Extent, GREATEST_BLOCK, LEAST_BLOCK};

/// How many sizes a block may have: each multiple of 4 from `LEAST_BLOCK` to `GREATEST_BLOCK`.
const SIZE_COUNT: u32 = 1_047_553;

/// What an image's nodes say of the size of its blocks.
#[derive(Clone, Copy, Debug, PartialEq, Eq)]
pub(crate) struct Marks {
    /// Clean markers.
    pub markers: u64,
    /// Whether one stands past address 0.
    pub is_later: bool,
    /// How many of `POWERS` are too small for some node.
    pub too_small: usize,
    /// The length of the longest node.
    pub longest: u32,
    /// The greatest common divisor of the addresses of clean markers.
    pub common: u32,
}

/// Whether so many of the powers of two, from the least up, have this one among them.
fn is_among(count: usize, size: u32) -> bool
    ensures { result ≡ is_among count size }
{
    POWERS.iter().take(count).any(|power| *power == size)
}

/// How many of the greatest sizes are above a number, so that it is a multiple of none.
fn count_above(common: u32) -> u32
    ensures few { result ≤ SIZE_COUNT }
    ensures none { (k : ℕ) → k < result → is_multiple common (GREATEST_BLOCK - 4 * k) ≡ false }
{
    if common == 0 || common > GREATEST_BLOCK {
        return 0;
    }
    ((GREATEST_BLOCK - common) / 4).min(SIZE_COUNT)
}

/// The sizes between two, if there are.
fn range_between(least: Option<u32>, greatest: Option<u32>) -> Option<SizeRange>
    ensures { result ≡ range_between least greatest }
{
    match (least, greatest) {
        (Some(least), Some(greatest)) => Some(SizeRange { least, greatest }),
        _ => None,
    }
}

impl Marks {
    /// What no extent says.
    pub(crate) fn none() -> Marks
        ensures { result ≡ no_marks }
    {
        Marks {
            markers: 0,
            is_later: false,
            too_small: 0,
            longest: 0,
            common: 0,
        }
    }

    /// The same with one extent more.
    pub(crate) fn with(self, extent: &Extent<'_>) -> Marks
        requires room { self.markers + 1 < 2 ^ 64 }
        ensures { MarksWith self extent.now result }
    {
        Marks {
            markers: self.markers + one_if(is_marker(&extent.kind)),
            is_later: self.is_later || is_later_marker(extent),
            too_small: self.too_small.max(too_small_for(extent)),
            longest: longest_with(self.longest, extent),
            common: common_with(self.common, extent),
        }
    }

    /// Whether nothing rules a size out.
    fn may_be(&self, size: u32) -> bool
        ensures { result ≡ may_be_by self.now size }
    {
        is_multiple(self.common, size) && self.longest <= size && !is_among(self.too_small, size)
    }

    /// The least size that nothing rules out.
    fn least(&self) -> Option<u32>
        ensures { result ≡ least_passing (may_be_by self.now) }
    {
        for k in 0..SIZE_COUNT {
            let size = LEAST_BLOCK + 4 * k;
            if self.may_be(size) {
                return Some(size);
            }
        }
        None
    }

    /// The greatest size that nothing rules out.
    fn greatest(&self) -> Option<u32>
        ensures { result ≡ greatest_passing (may_be_by self.now) }
    {
        let first = count_above(self.common);
        for k in first..SIZE_COUNT {
            let size = GREATEST_BLOCK - 4 * k;
            if self.may_be(size) {
                return Some(size);
            }
        }
        None
    }

    /// The sizes that the blocks may have.
    pub(crate) fn range(&self) -> Option<SizeRange>
        ensures { result ≡ range_of_marks self.now }
    {
        if !self.is_later {
            return None;
        }
        range_between(self.least(), self.greatest())
    }
}
