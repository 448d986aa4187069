//! Looking at an image.

ghost use Rattle.std.specs.Prelude.{◌≡◌, ◌≢◌, None, IfOk, IfErr, OnOk, IsTrue};
ghost use Rattle.std.specs.BTreeSet.{contains};
ghost use Rattle.std.specs.Ordering.{nat_cmp};
ghost use Rattle.jscan.specs.Image.{is_block_size};
ghost use Rattle.jexpand.specs.Expanded.{tile_content};
ghost use Rattle.jview.specs.Through.{through_fault};
ghost use Rattle.jthrough.specs.Refusals.{HasTileFault};
ghost use Rattle.jlook.specs.Look.{IsLookAt, IsSightedIfPacked, IsSightedOf, TakesLooked};

use crate::copying::copied;
use crate::look::Look;
use crate::packed::looked;
use crate::sighted::Sighted;
use jexpand::{ConvertFault, expanded_len};
use jnode::{Order, Seen};
use jscan::Geometry;
use jthrough::{GREATEST_CONTENTS, ViewFault};
use std::alloc::{AllocError, Global};
use std::collections::BTreeSet;

/// Puts what the data of a tile stand for, as it is looked at, in place of the bytes in a buffer, or
/// answers why the tile refuses the image.
fn judge_tile<E: Order>(
    alloc: Global,
    image: &[u8],
    geometry: Geometry,
    addr: u32,
    seen: &Seen<'_>,
    content: &mut Vec<u8>,
) -> Result<(), ViewFault>
    requires readable { IsTrue (is_block_size geometry.block) }
    requires sighted { IsSightedIfPacked E.order geometry.block image.now (addr, seen.now) }
    ensures none { OnOk result
        (through_fault E.order geometry.block image.now (addr, seen.now) ≡ None) }
    ensures content { OnOk result (content.new.items
        ≡ tile_content E.order geometry.block image.now (addr, seen.now)) }
    ensures fault { IfErr result
        (HasTileFault (through_fault E.order geometry.block image.now (addr, seen.now))) }
{
    content.clear();
    match seen {
        Seen::Incompatible { nodetype } => Err(ViewFault::Incompatible {
            addr,
            nodetype: *nodetype,
        }),
        Seen::Compressed { .. } => {
            match expanded_len::<E>(alloc, image, geometry, addr, seen, content) {
                Ok(_) => Ok(()),
                Err(ConvertFault::Compressed { addr, compr }) => {
                    Err(ViewFault::Compressed { addr, compr })
                }
                Err(ConvertFault::Data { addr }) => Err(ViewFault::Data { addr }),
                Err(ConvertFault::TooLong { addr }) => Err(ViewFault::TooLong { addr }),
                Err(_) => Err(ViewFault::OutOfMemory),
            }
        }
        _ => Ok(()),
    }
}

/// Takes in the next tile as it is looked at: its content goes behind the others, unless it refuses
/// the image.
fn take_tile<'a, E: Order>(
    alloc: Global,
    image: &'a [u8],
    geometry: Geometry,
    look: &mut Look<'a>,
    tile: (u32, Seen<'a>),
    contents: &mut Vec<u8>,
) -> Result<(), AllocError>
    requires readable { IsTrue (is_block_size geometry.block) }
    requires sighted { IsSightedIfPacked E.order geometry.block image.now tile }
    requires going { look.old.refused ≡ None }
    ensures { OnOk result (TakesLooked E.order geometry.block image.now tile.entry look.old
        look.new contents.old.items contents.new.items) }
{
    let (addr, seen) = tile;
    match judge_tile::<E>(alloc, image, geometry, addr, &seen, &mut look.content) {
        Ok(()) => {}
        Err(ViewFault::OutOfMemory) => return Err(AllocError),
        Err(fault) => {
            look.refused = Some(fault);
            return Ok(());
        }
    }
    contents.extend_from_slice(&look.content)?;
    if GREATEST_CONTENTS < contents.len() {
        look.refused = Some(ViewFault::TooLong { addr });
        return Ok(());
    }
    look.add_tile(addr, seen)
}

/// What an image shows if the contents of the objects of these numbers are wanted, up to the first
/// tile that refuses it. The contents of their compressed nodes take the place of the bytes in
/// `contents`, one after another; no other node is decompressed. No checksum is taken again.
pub(crate) fn look_over<'a, E: Order>(
    alloc: Global,
    image: &'a [u8],
    geometry: Geometry,
    sighted: &Sighted<'a>,
    wanted: &BTreeSet<u32>,
    contents: &mut Vec<u8>,
) -> Result<Look<'a>, AllocError>
    requires sighted { IsSightedOf E.order geometry.block image.now sighted.now }
    ensures { IfOk result (IsLookAt (contains nat_cmp wanted.now) E.order geometry.block
        image.now contents.new.items) }
{
    contents.clear();
    let mut look = Look::new(alloc);
    for tile in &sighted.tiles {
        let addr = tile.0;
        let seen = looked::<E>(image, geometry, wanted, addr, copied(&tile.1));
        take_tile::<E>(alloc, image, geometry, &mut look, (addr, seen), contents)?;
        if look.refused.is_some() {
            return Ok(look);
        }
    }
    look.add_findings(&sighted.findings)?;
    Ok(look)
}
