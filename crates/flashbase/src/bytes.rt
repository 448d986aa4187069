//! Padding to whole words, and erased flash.

ghost use Rattle.std.specs.Prelude.{◌≡◌, ◌↔◌, IsTrue};
ghost use Rattle.flashbase.specs.Bytes.{IsErasedRun, erased, pad4_of};

use std::simd::prelude::*;

/// How many bytes `erased_run` compares together.
const LANES: usize = 64;

/// The number, rounded up to a multiple of 4: nodes begin at such places (Woodhouse 2001).
#[tactic(auto, unfolding(crate::specs::Bytes::pad4_of))]
pub fn pad4(n: u32) -> u64
    ensures { result ≡ pad4_of n }
{
    (u64::from(n) + 3) / 4 * 4
}

/// The length of the longest beginning of 0xFF, which is what erased flash holds.
pub fn erased_run(bytes: &[u8]) -> usize
    ensures { IsErasedRun bytes.now result }
{
    let (whole, _) = bytes.as_chunks::<LANES>();
    let mut start = 0;
    for lanes in whole {
        if !is_erased(lanes) {
            break;
        }
        start += LANES;
    }
    start + erased_run_by_byte(&bytes[start..])
}

fn is_erased(lanes: &[u8; LANES]) -> bool
    ensures { IsTrue result ↔ (lanes.now ≡ erased LANES) }
{
    let differ = u8x64::from_array(*lanes).simd_ne(u8x64::splat(0xFF));
    differ.to_bitmask() == 0
}

fn erased_run_by_byte(bytes: &[u8]) -> usize
    ensures { IsErasedRun bytes.now result }
{
    bytes
        .iter()
        .position(|byte| *byte != 0xFF)
        .unwrap_or(bytes.len())
}
