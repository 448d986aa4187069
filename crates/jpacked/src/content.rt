//! The contents of the compressed nodes of an image.

ghost use Rattle.std.specs.Prelude.{◌≡◌, length, IsTrue, Contains, None};
ghost use Rattle.jscan.specs.Image.{is_block_size, sightings};
ghost use Rattle.jexpand.specs.Expanded.{tile_content, unpacked_bytes};
ghost use Rattle.jview.specs.Through.{IsSoundThrough, through_fault};

use jexpand::content_len;
use jnode::{Order, Seen};
use jscan::{Extent, ExtentKind, Geometry, ImageExtents};

/// How many bytes the content of a tile has, where it is a compressed node.
fn tile_len<E: Order>(image: &[u8], geometry: Geometry, addr: u32, seen: &Seen<'_>) -> usize
    requires readable { IsTrue (is_block_size geometry.block) }
    requires sighted { Contains (sightings E.order geometry.block image.now) (addr, seen.now) }
    requires none { through_fault E.order geometry.block image.now (addr, seen.now) ≡ None }
    ensures { result ≡ length (tile_content E.order geometry.block image.now (addr, seen.now)) }
{
    match seen {
        Seen::Compressed { .. } => content_len::<E>(image, geometry, addr, seen),
        _ => 0,
    }
}

/// How many bytes the contents of the compressed nodes of an image have, of which no node is
/// refused: at most 1 GiB. Nothing is decompressed.
pub fn contents_len<E: Order>(image: &[u8], geometry: Geometry) -> u32
    requires { IsSoundThrough E.order geometry.block image.now }
    ensures { result ≡ length (unpacked_bytes E.order geometry.block image.now) }
{
    let extents = match ImageExtents::<E>::new(image, geometry) {
        Ok(extents) => extents,
        Err(_) => return 0,
    };
    let mut sum = 0;
    for extent in extents {
        let Extent { addr, kind, .. } = extent;
        if let ExtentKind::Tiled(seen) = kind {
            sum += tile_len::<E>(image, geometry, addr, &seen) as u32;
        }
    }
    sum
}
