//! How many blocks Linux keeps in reserve.

ghost use Rattle.std.specs.Prelude.{◌≡◌, true};
ghost use Rattle.jscan.specs.Image.{is_block_size};
ghost use Rattle.jreserve.specs.Reserve.{linux_reserve};

use jscan::Geometry;

/// How many blocks of a flash of so many Linux keeps in reserve for its garbage collector.
pub fn linux_reserve(geometry: Geometry, blocks: u32) -> u32
    requires { is_block_size geometry.block ≡ true }
    ensures { result ≡ linux_reserve geometry.block blocks }
{
    let block = u64::from(geometry.block);
    let blocks = u64::from(blocks);
    let overhead = block * blocks / 50 + 100 * blocks;
    2 + overhead.div_ceil(block) as u32
}
