//! Looking at an image through its compression.

ghost use Rattle.std.specs.Prelude.{◌≡◌, ◌≢◌, None, IfOk, IfErr, IfSome, OnOk, IsTrue, Contains};
ghost use Rattle.jscan.specs.Image.{is_block_size, sightings};
ghost use Rattle.jexpand.specs.Expanded.{tile_content};
ghost use Rattle.jview.specs.Through.{through_fault};
ghost use Rattle.jthrough.specs.MountsThrough.{AnswersAlone};
ghost use Rattle.jthrough.specs.Refusals.{HasTileFault};
ghost use Rattle.jthrough.specs.View.{IsUnviewed, IsViewOf, TakesTile};

use crate::fault::ViewFault;
use crate::view::View;
use jexpand::{ConvertFault, expanded_len};
use jnode::{Order, Seen};
use jscan::{Extent, ExtentKind, Geometry, ImageExtents};
use std::alloc::{AllocError, Global};

/// How many bytes the contents of the compressed nodes of an image have at most.
pub const GREATEST_CONTENTS: usize = 1 << 30;

/// Puts what the data of a tile stand for in place of the bytes in a buffer, or answers why the
/// tile refuses the image.
fn judge_tile<E: Order>(
    alloc: Global,
    image: &[u8],
    geometry: Geometry,
    addr: u32,
    seen: &Seen<'_>,
    content: &mut Vec<u8>,
) -> Result<(), ViewFault>
    requires readable { IsTrue (is_block_size geometry.block) }
    requires sighted { Contains (sightings E.order geometry.block image.now) (addr, seen.now) }
    ensures none { OnOk result
        (through_fault E.order geometry.block image.now (addr, seen.now) ≡ None) }
    ensures content { OnOk result (content.new.items
        ≡ tile_content E.order geometry.block image.now (addr, seen.now)) }
    ensures fault { IfErr result
        (HasTileFault (through_fault E.order geometry.block image.now (addr, seen.now))) }
{
    content.clear();
    match seen {
        Seen::Incompatible { nodetype } => Err(ViewFault::Incompatible {
            addr,
            nodetype: *nodetype,
        }),
        Seen::Compressed { .. } => {
            match expanded_len::<E>(alloc, image, geometry, addr, seen, content) {
                Ok(_) => Ok(()),
                Err(ConvertFault::Compressed { addr, compr }) => {
                    Err(ViewFault::Compressed { addr, compr })
                }
                Err(ConvertFault::Data { addr }) => Err(ViewFault::Data { addr }),
                Err(ConvertFault::TooLong { addr }) => Err(ViewFault::TooLong { addr }),
                Err(_) => Err(ViewFault::OutOfMemory),
            }
        }
        _ => Ok(()),
    }
}

/// Takes in the next tile: its content goes behind the others, unless it refuses the image.
fn take_tile<'a, E: Order>(
    alloc: Global,
    image: &'a [u8],
    geometry: Geometry,
    view: &mut View<'a>,
    tile: (u32, Seen<'a>),
    contents: &mut Vec<u8>,
) -> Result<(), AllocError>
    requires readable { IsTrue (is_block_size geometry.block) }
    requires sighted { Contains (sightings E.order geometry.block image.now) tile }
    requires going { view.old.refused ≡ None }
    ensures { OnOk result (TakesTile E.order geometry.block image.now tile.entry view.old view.new
        contents.old.items contents.new.items) }
{
    let (addr, seen) = tile;
    match judge_tile::<E>(alloc, image, geometry, addr, &seen, &mut view.content) {
        Ok(()) => {}
        Err(ViewFault::OutOfMemory) => return Err(AllocError),
        Err(fault) => {
            view.refused = Some(fault);
            return Ok(());
        }
    }
    contents.extend_from_slice(&view.content)?;
    if GREATEST_CONTENTS < contents.len() {
        view.refused = Some(ViewFault::TooLong { addr });
        return Ok(());
    }
    view.add_tile(addr, seen)
}

/// What an image shows through its compression, up to the first node that refuses it. The contents
/// of its compressed nodes take the place of the bytes in `contents`, one after another, and each
/// is decompressed once. The missing tail of the last block counts as erased.
///
/// # Errors
/// `BlockSize` or `TooLarge`, before any byte is read. `OutOfMemory` may come at any time.
pub fn view_image<'a, E: Order>(
    alloc: Global,
    image: &'a [u8],
    geometry: Geometry,
    contents: &mut Vec<u8>,
) -> Result<View<'a>, ViewFault>
    ensures view { IfOk result
        (IsViewOf E.order geometry.block image.now contents.new.items) }
    ensures refused { IfOk result
        (λ view. IfSome view.refused (AnswersAlone E.order geometry.block image.now)) }
    ensures err { IfErr result (IsUnviewed geometry.block image.now) }
{
    contents.clear();
    let mut view = View::new(alloc);
    for extent in ImageExtents::<E>::new(image, geometry)? {
        view.add_finding(&extent)?;
        let Extent { addr, kind, .. } = extent;
        if let ExtentKind::Tiled(seen) = kind {
            take_tile::<E>(alloc, image, geometry, &mut view, (addr, seen), contents)?;
            if view.refused.is_some() {
                return Ok(view);
            }
        }
    }
    Ok(view)
}
