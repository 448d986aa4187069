//! Writing the image of nodes.

ghost use Rattle.std.specs.Prelude.{◌≡◌, ◌≤◌, ◌+◌, ◌%◌, ◌++◌, IfOk, IsTrue, length};
ghost use Rattle.flashbase.specs.Sinks.{PutsTo};
ghost use Rattle.jnode.specs.Header.{header_len};
ghost use Rattle.jscan.specs.Image.{is_block_size, greatest_image};
ghost use Rattle.jlog.specs.Places.{end_after};
ghost use Rattle.jcollect.specs.Planning.{IsSoundNodeAt, MayPut, tile_piece};
ghost use Rattle.jcollect.specs.Tiles.{copied_image, tile_in};

use crate::tile::tile_at;
use flashbase::{Part, PutFault, Sink, put_all};
use jlog::{place_after, put_erased, put_gap};
use jnode::Order;
use jscan::Geometry;

/// Puts all the bytes of a part.
fn put_part<S: Sink>(sink: &mut S, part: &Part<'_>) -> Result<(), PutFault>
    ensures { PutsTo S.Sink sink.old sink.new part.now result }
{
    let present = part.present();
    put_all(sink, present)?;
    put_erased(sink, part.len() - present.len())
}

/// Puts the node at an address at its place after `from`, and answers where the next one may begin.
fn put_tile<E: Order, S: Sink>(
    sink: &mut S,
    image: &[u8],
    geometry: Geometry,
    from: u32,
    addr: u32,
) -> Result<u32, PutFault>
    requires readable { IsTrue (is_block_size geometry.block) }
    requires sighted { IsSoundNodeAt E.order geometry.block image.now addr }
    requires fits { header_len + length (tile_in E.order geometry.block image.now addr)
        ≤ geometry.block }
    requires from { from ≤ greatest_image }
    requires word { from % 4 ≡ 0 }
    ensures puts { PutsTo S.Sink sink.old sink.new (tile_piece E.order geometry.block from
        (tile_in E.order geometry.block image.now addr)) result }
    ensures next { IfOk result (λ next. next ≡ end_after geometry.block from
        (length (tile_in E.order geometry.block image.now addr))) }
{
    let tile = tile_at::<E>(image, geometry, addr);
    let len = tile.len() as u32;
    let at = place_after(geometry.block, from, len);
    put_gap::<E, S>(sink, geometry.block, from, at)?;
    put_part(sink, &tile)?;
    Ok(at + len)
}

/// Puts the image of the nodes at these addresses, block by block: each with the bytes that it has
/// here. There is room for them, as `bytes_needed` tells.
///
/// # Errors
/// The sink failed after a beginning.
pub fn put<E: Order, S: Sink>(
    image: &[u8],
    geometry: Geometry,
    addresses: &[u32],
    sink: &mut S,
) -> Result<(), PutFault>
    requires { MayPut E.order geometry.block image.now addresses.now }
    ensures { PutsTo S.Sink sink.old sink.new
        (copied_image E.order geometry.block image.now addresses.now) result }
{
    let mut from = 0;
    for addr in addresses {
        from = match put_tile::<E, S>(sink, image, geometry, from, *addr) {
            Ok(next) => next,
            Err(fault) => return Err(fault),
        };
    }
    Ok(())
}
