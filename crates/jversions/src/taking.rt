//! The nodes of a revision, with what their data stand for.

ghost use Rattle.std.specs.Prelude.{◌≡◌, ◌++◌, [], ◌∷◌, None, IfOk, IfErr, OnOk, IsTrue, Contains};
ghost use Rattle.jscan.specs.Image.{is_block_size, sightings};
ghost use Rattle.jscan.specs.Scans.{IsScannable};
ghost use Rattle.jexpand.specs.Expanded.{contents_of_tiles, tile_content};
ghost use Rattle.jview.specs.Through.{through_fault};
ghost use Rattle.jthrough.specs.Refusals.{HasTileFault};
ghost use Rattle.jversions.specs.Taking.{HoldsTile, IsUntaken, RefusesHeld};
ghost use Rattle.jversions.specs.Tiles.{AreTilesHeld, tiles_upto};

use crate::packed::takes;
use crate::revision::Revision;
use jexpand::{ConvertFault, expanded_len};
use jnode::{Order, Seen};
use jscan::{Geometry, Sightings};
use jthrough::{GREATEST_CONTENTS, ViewFault};
use std::alloc::{AllocError, Global};

/// Puts what the data of a tile stand for in place of the bytes in a buffer, or answers why the
/// tile is refused.
fn judge_tile<E: Order>(
    alloc: Global,
    image: &[u8],
    geometry: Geometry,
    addr: u32,
    seen: &Seen<'_>,
    content: &mut Vec<u8>,
) -> Result<(), ViewFault>
    requires readable { IsTrue (is_block_size geometry.block) }
    requires sighted { Contains (sightings E.order geometry.block image.now) (addr, seen.now) }
    ensures none { OnOk result
        (through_fault E.order geometry.block image.now (addr, seen.now) ≡ None) }
    ensures content { OnOk result (content.new.items
        ≡ tile_content E.order geometry.block image.now (addr, seen.now)) }
    ensures fault { IfErr result
        (HasTileFault (through_fault E.order geometry.block image.now (addr, seen.now))) }
{
    content.clear();
    match seen {
        Seen::Incompatible { nodetype } => Err(ViewFault::Incompatible {
            addr,
            nodetype: *nodetype,
        }),
        Seen::Compressed { .. } => {
            match expanded_len::<E>(alloc, image, geometry, addr, seen, content) {
                Ok(_) => Ok(()),
                Err(ConvertFault::Compressed { addr, compr }) => {
                    Err(ViewFault::Compressed { addr, compr })
                }
                Err(ConvertFault::Data { addr }) => Err(ViewFault::Data { addr }),
                Err(ConvertFault::TooLong { addr }) => Err(ViewFault::TooLong { addr }),
                Err(_) => Err(ViewFault::OutOfMemory),
            }
        }
        _ => Ok(()),
    }
}

/// Adds a tile.
fn push_tile<'a>(
    tiles: &mut Vec<(u32, Seen<'a>)>,
    addr: u32,
    seen: Seen<'a>,
) -> Result<(), AllocError>
    ensures { OnOk result (tiles.new.items ≡ tiles.old.items ++ (addr, seen.entry) ∷ []) }
{
    tiles.push((addr, seen))?;
    Ok(())
}

/// Takes in a tile: its content goes behind those of the tiles before it.
fn hold_tile<'a, E: Order>(
    alloc: Global,
    image: &[u8],
    geometry: Geometry,
    tile: (u32, Seen<'a>),
    tiles: &mut Vec<(u32, Seen<'a>)>,
    contents: &mut Vec<u8>,
) -> Result<(), ViewFault>
    requires readable { IsTrue (is_block_size geometry.block) }
    requires sighted { Contains (sightings E.order geometry.block image.now) tile }
    ensures ok { OnOk result (HoldsTile E.order geometry.block image.now tile.entry
        tiles.old.items tiles.new.items contents.old.items contents.new.items) }
    ensures err { IfErr result
        (RefusesHeld E.order geometry.block image.now tile.entry contents.old.items) }
{
    let (addr, seen) = tile;
    let mut content = Vec::new(alloc);
    judge_tile::<E>(alloc, image, geometry, addr, &seen, &mut content)?;
    contents.extend_from_slice(&content)?;
    if GREATEST_CONTENTS < contents.len() {
        return Err(ViewFault::TooLong { addr });
    }
    push_tile(tiles, addr, seen)?;
    Ok(())
}

/// The tiles of a revision, in the order of their addresses. The contents of the compressed ones
/// take the place of the bytes in `contents`, one after another; no other node is decompressed.
pub(crate) fn take_tiles<'a, E: Order>(
    alloc: Global,
    image: &'a [u8],
    geometry: Geometry,
    revision: Revision,
    contents: &mut Vec<u8>,
) -> Result<Vec<(u32, Seen<'a>)>, ViewFault>
    ensures scannable { OnOk result (IsScannable geometry.block image.now) }
    ensures tiles { IfOk result (λ tiles. tiles.items
        ≡ tiles_upto revision E.order geometry.block image.now) }
    ensures held { OnOk result (AreTilesHeld E.order geometry.block image.now
        (tiles_upto revision E.order geometry.block image.now)) }
    ensures contents { OnOk result (contents.new.items
        ≡ contents_of_tiles E.order geometry.block image.now
        (tiles_upto revision E.order geometry.block image.now)) }
    ensures err { IfErr result
        (IsUntaken revision E.order geometry.block image.now) }
{
    contents.clear();
    let mut tiles = Vec::new(alloc);
    for (addr, seen) in Sightings::<E>::new(image, geometry)? {
        if takes::<E>(image, geometry, revision, addr, &seen) {
            hold_tile::<E>(alloc, image, geometry, (addr, seen), &mut tiles, contents)?;
        }
    }
    Ok(tiles)
}
