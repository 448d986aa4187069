//! Writing the image of the expanded nodes.

ghost use Rattle.std.specs.Prelude.{◌≡◌, ◌≤◌, None, Some, Ok, Err, OnOk, IfOk, IfErr, IsTrue, Contains, length};
ghost use Rattle.jnode.specs.Writing.{totlen_most};
ghost use Rattle.jscan.specs.Image.{is_block_size, sightings};
ghost use Rattle.jscan.specs.Scans.{IsScannable};
ghost use Rattle.jexpand.specs.Refused.{node_fault};
ghost use Rattle.jconvert.specs.Tallying.{EndsWithin, IsCursor};
ghost use Rattle.jconvert.specs.Holding.{BeginsAs, held_after, IsHeldOf};
ghost use Rattle.jconvert.specs.Putting.{PutsForm, PutsTile};
ghost use Rattle.jexpand.specs.Answers.{IsFormOf};
ghost use Rattle.jexpand.specs.Expanded.{expanded_node, tile_content};
ghost use Rattle.jexpand.specs.declared.fault.ConvertFault.TheVariants.{OutOfMemory};
ghost use Rattle.jconvert.specs.Converting.{least_written, convert_fault, Converts, WritesConverted, Decompresses};
ghost use Rattle.flashbase.specs.Sinks.{change_of};

use crate::converted::Converted;
use crate::judging::{HELD_MOST, greatest_blocks, judge};
use flashbase::{FromWriter, Sink, pad4};
use jexpand::{ConvertFault, content_len, write_expanded, write_with_content};
use jlog::{place_of, put_node};
use jnode::{Order, Seen};
use jscan::{Geometry, Sightings};
use std::alloc::Global;

/// Puts the written form of a node at its place after `from`, and answers where the next one may
/// begin.
pub(crate) fn put_form<E: Order, S: Sink>(
    sink: &mut S,
    geometry: Geometry,
    from: u32,
    form: &[u8],
) -> Result<u32, ConvertFault>
    requires readable { IsTrue (is_block_size geometry.block) }
    requires written { least_written ≤ geometry.block }
    requires cursor { IsCursor geometry.block from }
    requires len { length form.now ≤ totlen_most }
    ensures puts { PutsForm E.order geometry.block from form.now
        (change_of S.Sink sink.old sink.new) result }
    ensures room { result ≡ Err OutOfMemory
        → ¬ EndsWithin geometry.block from (length form.now) }
{
    let len = form.len() as u32;
    match place_of(geometry.block, greatest_blocks(geometry), from, len) {
        Some(at) => match put_node::<E, S>(sink, geometry.block, from, at, form) {
            Ok(()) => Ok(at + pad4(len) as u32),
            Err(_) => Err(ConvertFault::Sink),
        },
        None => Err(ConvertFault::OutOfMemory),
    }
}

/// Where nodes are made.
#[derive(Drop)]
struct Making<'a> {
    /// What is held of the contents of the tiles from the next one on, one after another.
    held: &'a [u8],
    content: Vec<u8>,
    /// The written form of the node.
    form: Vec<u8>,
}

/// Makes the written form of the node that a sighted tile gives, and answers whether it gives one.
/// What the data stand for is taken of what is held, if it is.
fn make_form<E: Order>(
    alloc: Global,
    image: &[u8],
    geometry: Geometry,
    addr: u32,
    seen: &Seen<'_>,
    making: &mut Making<'_>,
) -> Result<bool, ConvertFault>
    requires readable { IsTrue (is_block_size geometry.block) }
    requires sighted { Contains (sightings E.order geometry.block image.now) (addr, seen.now) }
    requires accepted { node_fault E.order geometry.block image.now (addr, seen.now) ≡ None }
    requires held { BeginsAs (tile_content E.order geometry.block image.now (addr, seen.now))
        making.old.held.now }
    ensures ok { IfOk result (λ is_one. IsFormOf E.order
        (expanded_node E.order geometry.block image.now (addr, seen.now)) making.new.form.items
        is_one) }
    ensures memory { IfErr result (λ fault. fault ≡ OutOfMemory) }
    ensures held { making.new.held.now
        ≡ held_after (tile_content E.order geometry.block image.now (addr, seen.now))
        making.old.held.now }
{
    let len = content_len::<E>(image, geometry, addr, seen);
    let form = &mut making.form;
    if len <= making.held.len() {
        let (content, rest) = making.held.split_at(len);
        making.held = rest;
        write_with_content::<E>(image, geometry, addr, seen, content, form)
    } else {
        making.held = &[];
        write_expanded::<E>(
            alloc,
            image,
            geometry,
            addr,
            seen,
            &mut making.content,
            form,
        )
    }
}

/// Puts what goes out for a sighted tile, and answers where the next node may begin.
fn put_tile<E: Order, S: Sink>(
    alloc: Global,
    image: &[u8],
    geometry: Geometry,
    sink: &mut S,
    from: u32,
    addr: u32,
    seen: &Seen<'_>,
    making: &mut Making<'_>,
) -> Result<u32, ConvertFault>
    requires readable { IsTrue (is_block_size geometry.block) }
    requires written { least_written ≤ geometry.block }
    requires sighted { Contains (sightings E.order geometry.block image.now) (addr, seen.now) }
    requires accepted { node_fault E.order geometry.block image.now (addr, seen.now) ≡ None }
    requires cursor { IsCursor geometry.block from }
    requires held { BeginsAs (tile_content E.order geometry.block image.now (addr, seen.now))
        making.old.held.now }
    ensures put { PutsTile E.order geometry.block image.now (addr, seen.now) from
        (change_of S.Sink sink.old sink.new) result }
    ensures held { making.new.held.now
        ≡ held_after (tile_content E.order geometry.block image.now (addr, seen.now))
        making.old.held.now }
{
    match make_form::<E>(alloc, image, geometry, addr, seen, making) {
        Ok(true) => put_form::<E, S>(sink, geometry, from, &making.form),
        Ok(false) => Ok(from),
        Err(_) => Err(ConvertFault::OutOfMemory),
    }
}

/// Puts the image of the expanded nodes of one that `judge` did not refuse. `held` is what it left,
/// or a beginning of that, also an empty one: what is not held is decompressed.
///
/// # Errors
/// `Sink`: it failed after a beginning. `OutOfMemory`: after a beginning too, or before a byte.
pub fn write_converted<E: Order, S: Sink>(
    alloc: Global,
    image: &[u8],
    geometry: Geometry,
    held: &[u8],
    sink: &mut S,
) -> Result<(), ConvertFault>
    requires accepted { convert_fault E.order geometry.block image.now ≡ None }
    requires held { IsHeldOf E.order geometry.block image.now held.now }
    ensures { WritesConverted E.order geometry.block image.now
        (change_of S.Sink sink.old sink.new) result }
{
    let sightings = match Sightings::<E>::new(image, geometry) {
        Ok(sightings) => sightings,
        Err(_) => return Err(ConvertFault::OutOfMemory),
    };
    let mut making = Making {
        held,
        content: Vec::new(alloc),
        form: Vec::new(alloc),
    };
    let mut from = 0;
    for (addr, seen) in sightings {
        match put_tile::<E, S>(alloc, image, geometry, sink, from, addr, &seen, &mut making) {
            Ok(next) => from = next,
            Err(fault) => return Err(fault),
        }
    }
    Ok(())
}

/// Decompresses an image into a sink, which comes back in any case.
///
/// # Errors
/// As `judge`, before a byte is put, and then as `write_converted`.
pub fn decompress<E: Order, S: Sink>(
    alloc: Global,
    image: &[u8],
    geometry: Geometry,
    mut sink: S,
) -> Result<(S, Converted), (ConvertFault, Option<S>)>
    ensures scannable { OnOk result (IsScannable geometry.block image.now) }
    ensures ok { IfOk result (λ done. Decompresses E.order geometry.block image.now
        (change_of S.Sink sink done.0) (Ok done.1)) }
    ensures err { IfErr result (λ refused. (back : S) × (refused.1 ≡ Some back)
        × Decompresses E.order geometry.block image.now
        (record {
          old = S.taken sink;
          new = S.taken back;
          before = S.failures sink;
          now = S.failures back;
        }) (Err refused.0)) }
{
    let judged = match judge::<E>(alloc, image, geometry, HELD_MOST) {
        Ok(judged) => judged,
        Err(fault) => return Err((fault, Some(sink))),
    };
    match write_converted::<E, S>(alloc, image, geometry, &judged.held, &mut sink) {
        Ok(()) => Ok((sink, judged.told)),
        Err(fault) => Err((fault, Some(sink))),
    }
}

/// The image that `decompress` would put, in memory.
///
/// # Errors
/// As `judge`.
pub fn decompressed<E: Order>(
    alloc: Global,
    image: &[u8],
    geometry: Geometry,
) -> Result<Vec<u8>, ConvertFault>
    ensures scannable { OnOk result (IsScannable geometry.block image.now) }
    ensures ok { IfOk result (λ bytes. Converts E.order geometry.block image.now (Ok bytes.items)) }
    ensures err { IfErr result (λ fault. Converts E.order geometry.block image.now (Err fault)) }
{
    let judged = judge::<E>(alloc, image, geometry, HELD_MOST)?;
    let bytes = match Vec::with_capacity(alloc, judged.told.bytes as usize) {
        Ok(bytes) => bytes,
        Err(_) => return Err(ConvertFault::OutOfMemory),
    };
    let mut sink = FromWriter::new(bytes);
    match write_converted::<E, FromWriter<Vec<u8>>>(
        alloc,
        image,
        geometry,
        &judged.held,
        &mut sink,
    ) {
        Ok(()) => Ok(sink.into_writer()),
        // A `Vec` fails to take bytes only where memory is wanting.
        Err(_) => Err(ConvertFault::OutOfMemory),
    }
}
