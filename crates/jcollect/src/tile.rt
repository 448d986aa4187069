//! The bytes of the nodes that are copied.

ghost use Rattle.std.specs.Prelude.{◌≡◌, ◌≤◌, IsTrue, length};
ghost use Rattle.jscan.specs.Image.{is_block_size};
ghost use Rattle.jexpand.specs.Expanded.{rest_at};
ghost use Rattle.jcollect.specs.Planning.{IsSoundNodeAt};
ghost use Rattle.jcollect.specs.Tiles.{tile_in};

use flashbase::{Part, pad4};
use jnode::{Order, header_in};
use jscan::{Geometry, block_at};

/// The rest of its block from a node on.
fn rest_at<'a, E: Order>(image: &'a [u8], geometry: Geometry, addr: u32) -> Part<'a>
    requires readable { IsTrue (is_block_size geometry.block) }
    requires sighted { IsSoundNodeAt E.order geometry.block image.now addr }
    ensures { result ≡ rest_at geometry.block image.now addr }
{
    let start = addr / geometry.block * geometry.block;
    let place = (addr % geometry.block) as usize;
    let block = block_at(image, start as usize, geometry.block as usize);
    block.slice(place, block.len() - place)
}

/// The bytes of the node at an address, up to the end of its last word.
pub(crate) fn tile_at<'a, E: Order>(image: &'a [u8], geometry: Geometry, addr: u32) -> Part<'a>
    requires readable { IsTrue (is_block_size geometry.block) }
    requires sighted { IsSoundNodeAt E.order geometry.block image.now addr }
    ensures tile { result ≡ tile_in E.order geometry.block image.now addr }
    ensures long { length result ≤ geometry.block }
{
    let rest = rest_at::<E>(image, geometry, addr);
    match header_in::<E>(&rest) {
        Some(header) => rest.slice(0, pad4(header.totlen) as usize),
        None => rest,
    }
}
