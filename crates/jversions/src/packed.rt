//! Which tiles are nodes of a revision.

ghost use Rattle.std.specs.Prelude.{◌≡◌, ℕ, IsTrue, Contains};
ghost use Rattle.jscan.specs.Image.{is_block_size, sightings};
ghost use Rattle.jexpand.specs.Expanded.{compressed_node_at};
ghost use Rattle.jversions.specs.Tiles.{takes_tile};

use crate::revision::Revision;
use jnode::{CompressedNode, Order, Seen, compressed_fields};
use jscan::{Geometry, block_at};

/// The compressed node at an address where one is sighted.
fn packed_at<'a, E: Order>(image: &'a [u8], geometry: Geometry, addr: u32) -> CompressedNode<'a>
    requires readable { IsTrue (is_block_size geometry.block) }
    requires sighted { (compr : ℕ)
        × Contains (sightings E.order geometry.block image.now) (addr, Seen.Compressed compr) }
    ensures { result ≡ compressed_node_at E.order geometry.block image.now addr }
{
    let start = addr / geometry.block * geometry.block;
    let place = (addr % geometry.block) as usize;
    let block = block_at(image, start as usize, geometry.block as usize);
    compressed_fields::<E>(&block.slice(place, block.len() - place))
}

/// Whether a tile is a node of a revision. Nothing is decompressed.
pub(crate) fn takes<E: Order>(
    image: &[u8],
    geometry: Geometry,
    revision: Revision,
    addr: u32,
    seen: &Seen<'_>,
) -> bool
    requires readable { IsTrue (is_block_size geometry.block) }
    requires sighted { Contains (sightings E.order geometry.block image.now) (addr, seen.now) }
    ensures { result
        ≡ takes_tile revision E.order geometry.block image.now (addr, seen.now) }
{
    match seen {
        Seen::Inode(node) => revision.has(node.ino, node.version),
        Seen::Compressed { .. } => {
            let packed = packed_at::<E>(image, geometry, addr);
            revision.has(packed.ino, packed.version)
        }
        _ => false,
    }
}
