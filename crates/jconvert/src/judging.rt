//! Whether an image is refused.

ghost use Rattle.std.specs.Prelude.{◌≡◌, ◌≢◌, ◌≤◌, ◌+◌, None, Some, IfSome, IfOk, IfErr, OnOk, IsTrue, Contains, vec_len};
ghost use Rattle.jnode.specs.Writing.{totlen_most};
ghost use Rattle.jscan.specs.Image.{is_block_size, sightings};
ghost use Rattle.jscan.specs.Scans.{IsScannable, forbids_writing};
ghost use Rattle.jconvert.specs.Holding.{IsHeldOf};
ghost use Rattle.jexpand.specs.Expanded.{tile_content};
ghost use Rattle.jconvert.specs.Converting.{convert_fault, converted_of, is_changed, greatest_blocks};
ghost use Rattle.jexpand.specs.Answers.{IsTileFault};
ghost use Rattle.jexpand.specs.Refused.{node_fault};
ghost use Rattle.jconvert.specs.Tallying.{IsCursor, IsRoomAfter, IsOneMore, CountsTile, IsTallyOf};
ghost use Rattle.jexpand.specs.declared.fault.ConvertFault.TheVariants.{Sink, OutOfMemory};

use crate::converted::{Converted, Judged};
use crate::holding::Held;
use flashbase::pad4;
use jexpand::{ConvertFault, expanded_len};
use jlog::place_of;
use jnode::{MARKER_LEN, Order, Seen};
use jscan::{GREATEST_IMAGE, Geometry, ScanFault, Sightings};
use std::alloc::Global;

/// The least size of a block that is written, in bytes.
const LEAST_WRITTEN: u32 = 8192;

/// How much of what is decompressed to judge an image `decompress` holds, in bytes.
pub const HELD_MOST: usize = 28 << 20;

/// What is counted of the nodes of an image.
#[derive(Clone, Copy)]
pub struct Tally {
    pub changed: u64,
    pub nodes: u64,
    /// The bytes that the nodes need, each up to a multiple of 4.
    pub needed: u64,
    /// Where the next node may begin, while there is room.
    pub room: Option<u32>,
    pub read_only: bool,
}

fn is_changed(seen: &Seen<'_>) -> bool
    ensures { result ≡ is_changed seen.now }
{
    matches!(seen, Seen::Compressed { .. })
}

fn forbids_writing(seen: &Seen<'_>) -> bool
    ensures { result ≡ forbids_writing seen.now }
{
    matches!(seen, Seen::ReadOnly { .. })
}

/// A count with so many more; one past 64 bits takes more memory than there is.
pub(crate) fn more(count: u64, by: u64) -> Result<u64, ConvertFault>
    ensures sum { IfOk result (λ sum. sum ≡ count + by) }
    ensures memory { IfErr result (λ fault. fault ≡ OutOfMemory) }
{
    match count.checked_add(by) {
        Some(sum) => Ok(sum),
        None => Err(ConvertFault::OutOfMemory),
    }
}

/// How many blocks the greatest flash has.
pub(crate) fn greatest_blocks(geometry: Geometry) -> u32
    requires { IsTrue (is_block_size geometry.block) }
    ensures { result ≡ greatest_blocks geometry.block }
{
    GREATEST_IMAGE as u32 / geometry.block
}

/// Where the node after one of `len` bytes may begin, if there is room for that one.
fn room_after(geometry: Geometry, room: Option<u32>, len: u32) -> Option<u32>
    requires readable { IsTrue (is_block_size geometry.block) }
    requires room { IfSome room (IsCursor geometry.block) }
    requires len { len ≤ totlen_most }
    ensures { IsRoomAfter geometry.block room len result }
{
    let from = room?;
    if geometry.block < LEAST_WRITTEN {
        return None;
    }
    let at = place_of(geometry.block, greatest_blocks(geometry), from, len)?;
    Some(at + pad4(len) as u32)
}

/// What is counted with one tile more, whose node has this length if it gives one.
fn with_tile(
    tally: Tally,
    geometry: Geometry,
    seen: &Seen<'_>,
    len: Option<u32>,
) -> Result<Tally, ConvertFault>
    requires readable { IsTrue (is_block_size geometry.block) }
    requires room { IfSome tally.room (IsCursor geometry.block) }
    requires len { IfSome len (λ n. n ≤ totlen_most) }
    ensures ok { IfOk result (IsOneMore geometry.block tally seen.now len) }
    ensures memory { IfErr result (λ fault. fault ≡ OutOfMemory) }
{
    let changed = more(tally.changed, u64::from(is_changed(seen)))?;
    let read_only = tally.read_only || forbids_writing(seen);
    match len {
        Some(len) => Ok(Tally {
            changed,
            nodes: more(tally.nodes, 1)?,
            needed: more(tally.needed, pad4(len))?,
            room: room_after(geometry, tally.room, len),
            read_only,
        }),
        None => Ok(Tally {
            changed,
            read_only,
            ..tally
        }),
    }
}

/// What is counted with a sighted tile more, or why that is refused. What its data stand for is
/// left in the buffer.
fn count_tile<E: Order>(
    alloc: Global,
    image: &[u8],
    geometry: Geometry,
    tally: Tally,
    addr: u32,
    seen: &Seen<'_>,
    content: &mut Vec<u8>,
) -> Result<Tally, ConvertFault>
    requires readable { IsTrue (is_block_size geometry.block) }
    requires sighted { Contains (sightings E.order geometry.block image.now) (addr, seen.now) }
    requires room { IfSome tally.room (IsCursor geometry.block) }
    ensures ok { IfOk result (CountsTile E.order geometry.block image.now tally addr seen.now) }
    ensures content { OnOk result (content.new.items
        ≡ tile_content E.order geometry.block image.now (addr, seen.now)) }
    ensures refused { IfErr result
        (IsTileFault (node_fault E.order geometry.block image.now (addr, seen.now))) }
{
    let len = expanded_len::<E>(alloc, image, geometry, addr, seen, content)?;
    with_tile(tally, geometry, seen, len)
}

/// Counts the nodes of an image, and holds at most so many bytes of what their data stand for; or
/// answers why its sizes or a node of it are refused.
fn count_nodes<E: Order>(
    alloc: Global,
    image: &[u8],
    geometry: Geometry,
    most: usize,
) -> Result<(Tally, Vec<u8>), ConvertFault>
    ensures ok { IfOk result (λ done. IsTallyOf E.order geometry.block image.now done.0) }
    ensures held { IfOk result (λ done. IsHeldOf E.order geometry.block image.now done.1.items) }
    ensures few { IfOk result (λ done. vec_len done.1 ≤ most) }
    ensures refused { IfErr result (λ fault. fault ≢ OutOfMemory
        → convert_fault E.order geometry.block image.now ≡ Some fault) }
    ensures no_sink { IfErr result (λ fault. fault ≢ Sink) }
{
    let sightings = match Sightings::<E>::new(image, geometry) {
        Ok(sightings) => sightings,
        Err(ScanFault::BlockSize) => return Err(ConvertFault::BlockSize),
        Err(ScanFault::TooLarge) => return Err(ConvertFault::TooLarge),
        Err(_) => return Err(ConvertFault::OutOfMemory),
    };
    let mut tally = Tally {
        changed: 0,
        nodes: 0,
        needed: 0,
        room: Some(0),
        read_only: false,
    };
    let mut content = Vec::new(alloc);
    let mut held = Held {
        bytes: Vec::new(alloc),
        is_whole: true,
    };
    for (addr, seen) in sightings {
        tally = count_tile::<E>(alloc, image, geometry, tally, addr, &seen, &mut content)?;
        held.hold(&content, most);
    }
    Ok((tally, held.bytes))
}

/// What would be told of an image if it were decompressed, or why it is refused. No byte is put. It
/// takes the memory of one node's data, and of at most `most` bytes beside, which hold what the
/// data of the first compressed nodes stand for; where memory is wanting for these, fewer are held.
///
/// # Errors
/// All but `Sink`, in the order of [`ConvertFault`]. Out of memory at any time.
pub fn judge<E: Order>(
    alloc: Global,
    image: &[u8],
    geometry: Geometry,
    most: usize,
) -> Result<Judged, ConvertFault>
    ensures accepted { OnOk result (convert_fault E.order geometry.block image.now ≡ None) }
    ensures scannable { OnOk result (IsScannable geometry.block image.now) }
    ensures told { IfOk result
        (λ judged. judged.told ≡ converted_of E.order geometry.block image.now) }
    ensures held { IfOk result
        (λ judged. IsHeldOf E.order geometry.block image.now judged.held.items) }
    ensures few { IfOk result (λ judged. vec_len judged.held ≤ most) }
    ensures refused { IfErr result (λ fault. fault ≢ OutOfMemory
        → convert_fault E.order geometry.block image.now ≡ Some fault) }
    ensures no_sink { IfErr result (λ fault. fault ≢ Sink) }
{
    let (tally, held) = count_nodes::<E>(alloc, image, geometry, most)?;
    if tally.read_only {
        return Err(ConvertFault::ReadOnly);
    }
    if geometry.block < LEAST_WRITTEN {
        return Err(ConvertFault::Geometry);
    }
    match tally.room {
        Some(end) => {
            let told = Converted {
                changed: tally.changed,
                nodes: tally.nodes,
                bytes: u64::from(end),
            };
            Ok(Judged { told, held })
        }
        None => {
            let blocks = u64::from(greatest_blocks(geometry));
            Err(ConvertFault::Full {
                needed: tally.needed,
                free: blocks * u64::from(geometry.block) - MARKER_LEN as u64 * blocks,
            })
        }
    }
}
