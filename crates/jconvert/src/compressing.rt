//! Writing the image of the nodes, compressed where that is shorter.

ghost use Rattle.std.specs.Prelude.{◌≡◌, ◌≢◌, ◌≤◌, None, Some, Ok, Err, OnOk, IfOk, IfErr, IsTrue, Contains, length};
ghost use Rattle.jscan.specs.Image.{is_block_size, sightings};
ghost use Rattle.jscan.specs.Scans.{IsScannable};
ghost use Rattle.jexpand.specs.Answers.{IsTileFault};
ghost use Rattle.jexpand.specs.Expanded.{expanded_node, expanded_nodes};
ghost use Rattle.jexpand.specs.Refused.{node_fault, nodes_fault};
ghost use Rattle.jexpand.specs.declared.fault.ConvertFault.TheVariants.{Sink, OutOfMemory};
ghost use Rattle.jconvert.specs.Compressing.{packed_number, pack_fault, pack_fault_among, compress_fault, Compresses};
ghost use Rattle.jconvert.specs.Converting.{least_written, convert_fault};
ghost use Rattle.jconvert.specs.PuttingPacked.{IsMadeFor, PutsPacked, WritesPacked};
ghost use Rattle.jlog.specs.Packed.{IsPackedForm};
ghost use Rattle.jnode.specs.declared.node.InodeNode.{InodeNode};
ghost use Rattle.jnode.specs.declared.node.NodeRef.TheVariants as node;
ghost use Rattle.jconvert.specs.Tallying.{IsCursor};
ghost use Rattle.flashbase.specs.Sinks.{change_of};

use crate::converted::Converted;
use crate::judging::{judge, more};
use crate::packing::{Packing, pack_inode};
use crate::writing::put_form;
use flashbase::Sink;
use jexpand::{ConvertFault, expanded_len, write_expanded};
use jnode::{Order, Seen};
use jscan::{Geometry, ScanFault, Sightings};
use std::alloc::Global;

fn packed_number(seen: &Seen<'_>) -> Option<u8>
    ensures { result ≡ packed_number seen.now }
{
    match seen {
        Seen::Compressed { compr } => Some(*compr),
        _ => None,
    }
}

/// Why a sighted tile is refused, if it is: a compressed node is.
fn accept_tile<E: Order>(
    alloc: Global,
    image: &[u8],
    geometry: Geometry,
    addr: u32,
    seen: &Seen<'_>,
    content: &mut Vec<u8>,
) -> Result<(), ConvertFault>
    requires readable { IsTrue (is_block_size geometry.block) }
    requires sighted { Contains (sightings E.order geometry.block image.now) (addr, seen.now) }
    ensures plain { OnOk result
        (pack_fault E.order geometry.block image.now (addr, seen.now) ≡ None) }
    ensures none { OnOk result
        (node_fault E.order geometry.block image.now (addr, seen.now) ≡ None) }
    ensures refused { IfErr result
        (IsTileFault (pack_fault E.order geometry.block image.now (addr, seen.now))) }
{
    if let Some(compr) = packed_number(seen) {
        return Err(ConvertFault::Compressed { addr, compr });
    }
    match expanded_len::<E>(alloc, image, geometry, addr, seen, content) {
        Ok(_) => Ok(()),
        Err(fault) => Err(fault),
    }
}

/// Whether none of the nodes of an image is refused, or why its sizes or one of them is.
fn accept_nodes<E: Order>(
    alloc: Global,
    image: &[u8],
    geometry: Geometry,
) -> Result<(), ConvertFault>
    ensures plain { OnOk result
        (pack_fault_among E.order geometry.block image.now
        (sightings E.order geometry.block image.now) ≡ None) }
    ensures none { OnOk result (nodes_fault E.order geometry.block image.now ≡ None) }
    ensures refused { IfErr result (λ fault. fault ≢ OutOfMemory
        → compress_fault E.order geometry.block image.now ≡ Some fault) }
    ensures no_sink { IfErr result (λ fault. fault ≢ Sink) }
{
    let sightings = match Sightings::<E>::new(image, geometry) {
        Ok(sightings) => sightings,
        Err(ScanFault::BlockSize) => return Err(ConvertFault::BlockSize),
        Err(ScanFault::TooLarge) => return Err(ConvertFault::TooLarge),
        Err(_) => return Err(ConvertFault::OutOfMemory),
    };
    let mut content = Vec::new(alloc);
    for (addr, seen) in sightings {
        match accept_tile::<E>(alloc, image, geometry, addr, &seen, &mut content) {
            Ok(()) => {}
            Err(fault) => return Err(fault),
        }
    }
    Ok(())
}

/// How many nodes an image has that is to be compressed, or why it is refused. No byte is put.
///
/// # Errors
/// All but `Sink`, in the order of [`ConvertFault`]; `Compressed` of any node that is compressed.
/// Out of memory at any time.
pub fn judge_plain<E: Order>(
    alloc: Global,
    image: &[u8],
    geometry: Geometry,
) -> Result<u64, ConvertFault>
    ensures accepted { OnOk result (compress_fault E.order geometry.block image.now ≡ None) }
    ensures expands { OnOk result (convert_fault E.order geometry.block image.now ≡ None) }
    ensures scannable { OnOk result (IsScannable geometry.block image.now) }
    ensures nodes { IfOk result
        (λ count. count ≡ length (expanded_nodes E.order geometry.block image.now)) }
    ensures refused { IfErr result (λ fault. fault ≢ OutOfMemory
        → compress_fault E.order geometry.block image.now ≡ Some fault) }
    ensures no_sink { IfErr result (λ fault. fault ≢ Sink) }
{
    match accept_nodes::<E>(alloc, image, geometry) {
        Ok(()) => {}
        Err(fault) => return Err(fault),
    }
    match judge::<E>(alloc, image, geometry, 0) {
        Ok(judged) => Ok(judged.told.nodes),
        Err(fault) => Err(fault),
    }
}

/// Makes the packed form of the node that a sighted tile gives, and answers whether there is one.
fn pack_tile<E: Order>(
    alloc: Global,
    seen: &Seen<'_>,
    packing: &mut Packing,
) -> Result<bool, ConvertFault>
    ensures packed { IfOk result (λ is_packed. IsTrue is_packed
        → (inode : InodeNode) × (seen.now ≡ Seen.Inode inode)
        × IsPackedForm E.order (node.Inode inode) packing.new.form.items) }
    ensures memory { IfErr result (λ fault. fault ≡ OutOfMemory) }
{
    match seen {
        Seen::Inode(inode) => pack_inode::<E>(alloc, inode, packing),
        _ => Ok(false),
    }
}

/// Makes the written form that goes out for the node that a sighted tile gives: whether it gives
/// one, and whether it is packed.
fn make_packed<E: Order>(
    alloc: Global,
    image: &[u8],
    geometry: Geometry,
    addr: u32,
    seen: &Seen<'_>,
    packing: &mut Packing,
) -> Result<(bool, bool), ConvertFault>
    requires readable { IsTrue (is_block_size geometry.block) }
    requires sighted { Contains (sightings E.order geometry.block image.now) (addr, seen.now) }
    requires accepted { node_fault E.order geometry.block image.now (addr, seen.now) ≡ None }
    ensures ok { IfOk result
        (λ made. IsMadeFor E.order (expanded_node E.order geometry.block image.now (addr, seen.now))
        packing.new.form.items made.0 made.1) }
    ensures memory { IfErr result (λ fault. fault ≡ OutOfMemory) }
{
    if pack_tile::<E>(alloc, seen, packing)? {
        return Ok((true, true));
    }
    let Packing { whole, form, .. } = packing;
    let is_one = write_expanded::<E>(alloc, image, geometry, addr, seen, whole, form)?;
    Ok((is_one, false))
}

/// Puts what goes out for a sighted tile, and answers where the next node may begin, and whether
/// the node is packed.
fn put_packed<E: Order, S: Sink>(
    alloc: Global,
    image: &[u8],
    geometry: Geometry,
    sink: &mut S,
    from: u32,
    addr: u32,
    seen: &Seen<'_>,
    packing: &mut Packing,
) -> Result<(u32, bool), ConvertFault>
    requires readable { IsTrue (is_block_size geometry.block) }
    requires written { least_written ≤ geometry.block }
    requires sighted { Contains (sightings E.order geometry.block image.now) (addr, seen.now) }
    requires accepted { node_fault E.order geometry.block image.now (addr, seen.now) ≡ None }
    requires cursor { IsCursor geometry.block from }
    ensures { PutsPacked E.order geometry.block
        (expanded_node E.order geometry.block image.now (addr, seen.now)) from
        (change_of S.Sink sink.old sink.new) result }
{
    let is_packed = match make_packed::<E>(alloc, image, geometry, addr, seen, packing) {
        Ok((true, is_packed)) => is_packed,
        Ok((false, _)) => return Ok((from, false)),
        Err(_) => return Err(ConvertFault::OutOfMemory),
    };
    match put_form::<E, S>(sink, geometry, from, &packing.form) {
        Ok(next) => Ok((next, is_packed)),
        Err(fault) => Err(fault),
    }
}

/// Puts an image of the nodes of one that `judge_plain` did not refuse, and answers how many of
/// them are compressed, and its length.
///
/// # Errors
/// `Sink`: it failed after a beginning. `OutOfMemory`: after a beginning too, or before a byte.
pub fn write_packed<E: Order, S: Sink>(
    alloc: Global,
    image: &[u8],
    geometry: Geometry,
    sink: &mut S,
) -> Result<(u64, u64), ConvertFault>
    requires { convert_fault E.order geometry.block image.now ≡ None }
    ensures { WritesPacked E.order geometry.block image.now
        (change_of S.Sink sink.old sink.new) result }
{
    let sightings = match Sightings::<E>::new(image, geometry) {
        Ok(sightings) => sightings,
        Err(_) => return Err(ConvertFault::OutOfMemory),
    };
    let mut packing = Packing::new(alloc)?;
    let mut from = 0;
    let mut changed = 0;
    for (addr, seen) in sightings {
        match put_packed::<E, S>(
            alloc,
            image,
            geometry,
            sink,
            from,
            addr,
            &seen,
            &mut packing,
        ) {
            Ok((next, is_packed)) => {
                from = next;
                changed = more(changed, u64::from(is_packed))?;
            }
            Err(fault) => return Err(fault),
        }
    }
    Ok((changed, u64::from(from)))
}

/// Compresses an image of the profile into a sink, which comes back in any case: nodes of regular
/// files go out with data of ZLIB where that is shorter, and all others as they are.
///
/// # Errors
/// As `judge_plain`, before a byte is put. `Sink`: it failed after a beginning. `OutOfMemory` at
/// any time.
pub fn compress<E: Order, S: Sink>(
    alloc: Global,
    image: &[u8],
    geometry: Geometry,
    mut sink: S,
) -> Result<(S, Converted), (ConvertFault, Option<S>)>
    ensures scannable { OnOk result (IsScannable geometry.block image.now) }
    ensures ok { IfOk result (λ done. Compresses E.order geometry.block image.now
        (change_of S.Sink sink done.0) (Ok done.1)) }
    ensures err { IfErr result (λ refused. (back : S) × (refused.1 ≡ Some back)
        × Compresses E.order geometry.block image.now
        (record {
          old = S.taken sink;
          new = S.taken back;
          before = S.failures sink;
          now = S.failures back;
        }) (Err refused.0)) }
{
    let nodes = match judge_plain::<E>(alloc, image, geometry) {
        Ok(nodes) => nodes,
        Err(fault) => return Err((fault, Some(sink))),
    };
    match write_packed::<E, S>(alloc, image, geometry, &mut sink) {
        Ok((changed, bytes)) => {
            let told = Converted {
                changed,
                nodes,
                bytes,
            };
            Ok((sink, told))
        }
        Err(fault) => Err((fault, Some(sink))),
    }
}
