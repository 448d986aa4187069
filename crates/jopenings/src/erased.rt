//! How many blocks are erased after bytes went out to openings.

ghost use Rattle.std.specs.Prelude.{◌≡◌, ◌*◌, ◌≤◌, ◌++◌, true, cond};
ghost use Rattle.jscan.specs.Image.{is_block_size, greatest_image};
ghost use Rattle.jreserve.specs.Erased.{erased_blocks, is_all_erased};
ghost use Rattle.jopenings.specs.Stretches.{AreStretches, image_with};

use crate::placing::{Halves, StretchesOnFlash, Written, step_to};
use jreserve::is_erased;

/// Whether a block is erased.
fn is_erased_block(block: &Halves<'_>) -> bool
    ensures { result ≡ is_all_erased (block.now.front ++ block.now.behind) }
{
    is_erased(&block.front) && is_erased(&block.behind)
}

/// One, if that is so.
fn one_if(is: bool) -> u32
    ensures { result ≡ cond is 1 0 }
{
    if is { 1 } else { 0 }
}

/// How many blocks of the flash are erased in an image after these bytes went out to its stretches,
/// one after the other: in what `put_with_stretches` puts. In time linear in all of these.
pub fn erased_with_stretches(flash: &StretchesOnFlash<'_>, image: &[u8], bytes: &[u8]) -> u32
    requires readable { is_block_size flash.now.geometry.block ≡ true }
    requires small { flash.now.blocks * flash.now.geometry.block ≤ greatest_image }
    requires stretches { AreStretches flash.now.geometry.block 0 flash.now.blocks
        flash.now.stretches.now }
    ensures { result ≡ erased_blocks flash.now.geometry.block flash.now.blocks
        (image_with flash.now.geometry.block flash.now.blocks image.now flash.now.stretches.now
        bytes.now) }
{
    let mut count = 0;
    let mut written = Written {
        stretches: flash.stretches,
        bytes,
    };
    for block in 0..flash.blocks {
        let step = step_to(flash, image, &written, block);
        count += one_if(is_erased_block(&step.block));
        written = step.later;
    }
    count
}
