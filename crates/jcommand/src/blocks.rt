//! The number of blocks of a flash, where it may be left out.
ghost use Rattle.std.specs.Prelude.{◌≡◌, ◌≤◌, length};
ghost use Rattle.jscan.specs.Image.{greatest_image};
ghost use Rattle.jcommand.specs.Blocks.{blocks_asked};

use jscan::Geometry;

/// As many blocks as are asked for, or as an image has or begins.
pub fn blocks_asked(blocks: Option<u32>, geometry: Geometry, image: &[u8]) -> u32
    requires { length image.now ≤ greatest_image }
    ensures { result ≡ blocks_asked blocks geometry.block image.now }
{
    match blocks {
        Some(blocks) => blocks,
        None => match geometry.block {
            0 => 0,
            size => (image.len() as u32).div_ceil(size),
        },
    }
}
