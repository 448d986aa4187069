//! The node that a sighted tile gives.

ghost use Rattle.std.specs.Prelude.{◌≡◌, ◌≤◌, ◌+◌, ℕ, [], None, Some, IfOk, IfErr, OnOk, IsTrue, Contains, length, option_map, unwrap_or};
ghost use Rattle.jnode.specs.Reading.{inode_len};
ghost use Rattle.jnode.specs.Writing.{stored_bytes};
ghost use Rattle.jnode.specs.declared.node.NodeRef.TheVariants as node;
ghost use Rattle.jscan.specs.Image.{is_block_size, sightings};
ghost use Rattle.jexpand.specs.Expanded.{compressed_node_at, node_content, with_content, expanded_node};
ghost use Rattle.jexpand.specs.Expanded.{tile_content};
ghost use Rattle.jexpand.specs.Refused.{too_long, compressed_fault, node_fault};
ghost use Rattle.jexpand.specs.Answers.{AnswersLength, IsFormOf};
ghost use Rattle.jexpand.specs.declared.fault.ConvertFault.TheVariants.{OutOfMemory};

use crate::content::fill_content;
use crate::fault::ConvertFault;
use flashbase::Part;
use jcompr::{DataFault, Method};
use jnode::{
    CompressedNode, Dirent, ENTRY_LEN, Fill, INODE_LEN, InodeNode, MARKER_LEN, NodeRef, Order,
    Seen, compressed_fields, write_entry, write_inode,
};
use jscan::{Geometry, block_at};
use std::alloc::Global;

/// The node at an address where a compressed one is sighted.
fn compressed_node<'a, E: Order>(
    image: &'a [u8],
    geometry: Geometry,
    addr: u32,
) -> CompressedNode<'a>
    requires readable { IsTrue (is_block_size geometry.block) }
    requires sighted { (compr : ℕ)
        × Contains (sightings E.order geometry.block image.now) (addr, Seen.Compressed compr) }
    ensures { result ≡ compressed_node_at E.order geometry.block image.now addr }
{
    let start = addr / geometry.block * geometry.block;
    let place = (addr % geometry.block) as usize;
    let block = block_at(image, start as usize, geometry.block as usize);
    compressed_fields::<E>(&block.slice(place, block.len() - place))
}

/// The length of a node of `front` bytes and `len` more, where a block holds it after its marker.
fn placed_len(
    geometry: Geometry,
    addr: u32,
    front: u32,
    len: usize,
) -> Result<Option<u32>, ConvertFault>
    requires readable { IsTrue (is_block_size geometry.block) }
    requires front { front ≤ inode_len }
    ensures ok { OnOk result (too_long geometry.block addr (front + len) ≡ None) }
    ensures len { IfOk result (λ found. found ≡ Some (front + len)) }
    ensures err { IfErr result (λ fault. too_long geometry.block addr (front + len) ≡ Some fault) }
{
    let room = geometry.block - MARKER_LEN as u32 - front;
    if len <= room as usize {
        Ok(Some(front + len as u32))
    } else {
        Err(ConvertFault::TooLong { addr })
    }
}

fn stored_len(fill: &Fill<'_>) -> usize
    ensures { result ≡ length (stored_bytes fill.now) }
{
    match fill {
        Fill::Zero => 0,
        Fill::Data(data) => data.len(),
    }
}

/// The length of the expanded node at an address where a compressed one is sighted.
fn compressed_len(
    alloc: Global,
    geometry: Geometry,
    addr: u32,
    node: &CompressedNode<'_>,
    content: &mut Vec<u8>,
) -> Result<Option<u32>, ConvertFault>
    requires { IsTrue (is_block_size geometry.block) }
    ensures len { AnswersLength (compressed_fault geometry.block addr node.now)
        (option_map (with_content node.now) (node_content node.now)) result }
    ensures content { OnOk result (content.new.items ≡ unwrap_or (node_content node.now) []) }
{
    if Method::of(node.compr).is_none() {
        return Err(ConvertFault::Compressed {
            addr,
            compr: node.compr,
        });
    }
    let len = placed_len(geometry, addr, INODE_LEN as u32, node.dsize as usize)?;
    match fill_content(alloc, node, content) {
        Ok(()) => Ok(len),
        Err(DataFault::Wrong) => Err(ConvertFault::Data { addr }),
        Err(DataFault::OutOfMemory) => Err(ConvertFault::OutOfMemory),
    }
}

/// The length of the written form of the node that a sighted tile gives, if it gives one. A
/// compressed node's data are decompressed, to see that they have content, which is then in the
/// buffer; for another tile the buffer is empty.
///
/// # Errors
/// `Incompatible`, `Compressed`, `Data` and `TooLong`, at the tile's address; else out of memory.
pub fn expanded_len<E: Order>(
    alloc: Global,
    image: &[u8],
    geometry: Geometry,
    addr: u32,
    seen: &Seen<'_>,
    content: &mut Vec<u8>,
) -> Result<Option<u32>, ConvertFault>
    requires readable { IsTrue (is_block_size geometry.block) }
    requires sighted { Contains (sightings E.order geometry.block image.now) (addr, seen.now) }
    ensures len { AnswersLength (node_fault E.order geometry.block image.now (addr, seen.now))
        (expanded_node E.order geometry.block image.now (addr, seen.now)) result }
    ensures content { OnOk result (content.new.items
        ≡ tile_content E.order geometry.block image.now (addr, seen.now)) }
{
    content.clear();
    match seen {
        Seen::Entry(entry) => placed_len(geometry, addr, ENTRY_LEN as u32, entry.name.len()),
        Seen::Inode(inode) => placed_len(geometry, addr, INODE_LEN as u32, stored_len(&inode.fill)),
        Seen::Compressed { .. } => {
            let node = compressed_node::<E>(image, geometry, addr);
            compressed_len(alloc, geometry, addr, &node, content)
        }
        Seen::Incompatible { nodetype } => Err(ConvertFault::Incompatible {
            addr,
            nodetype: *nodetype,
        }),
        _ => Ok(None),
    }
}

fn put_entry<E: Order>(out: &mut Vec<u8>, entry: &Dirent<'_>) -> Result<bool, ConvertFault>
    ensures ok { IfOk result
        (λ is_one. IsFormOf E.order (Some (node.Entry entry.now)) out.new.items is_one) }
    ensures memory { IfErr result (λ fault. fault ≡ OutOfMemory) }
{
    out.clear();
    match write_entry::<E>(out, entry) {
        Ok(()) => Ok(true),
        Err(_) => Err(ConvertFault::OutOfMemory),
    }
}

fn put_inode<E: Order>(out: &mut Vec<u8>, inode: &InodeNode<'_>) -> Result<bool, ConvertFault>
    ensures ok { IfOk result
        (λ is_one. IsFormOf E.order (Some (node.Inode inode.now)) out.new.items is_one) }
    ensures memory { IfErr result (λ fault. fault ≡ OutOfMemory) }
{
    out.clear();
    match write_inode::<E>(out, inode) {
        Ok(()) => Ok(true),
        Err(_) => Err(ConvertFault::OutOfMemory),
    }
}

fn put_with_content<E: Order>(
    packed: &CompressedNode<'_>,
    content: &[u8],
    out: &mut Vec<u8>,
) -> Result<bool, ConvertFault>
    requires { node_content packed.now ≡ Some content.now }
    ensures ok { IfOk result (λ is_one. IsFormOf E.order
        (option_map (with_content packed.now) (node_content packed.now)) out.new.items is_one) }
    ensures memory { IfErr result (λ fault. fault ≡ OutOfMemory) }
{
    put_inode::<E>(out, &packed.inode_with(Fill::Data(Part::new(content, 0))))
}

fn put_compressed<E: Order>(
    alloc: Global,
    packed: &CompressedNode<'_>,
    content: &mut Vec<u8>,
    out: &mut Vec<u8>,
) -> Result<bool, ConvertFault>
    ensures ok { IfOk result (λ is_one. IsFormOf E.order
        (option_map (with_content packed.now) (node_content packed.now)) out.new.items is_one) }
    ensures memory { IfErr result (λ fault. fault ≡ OutOfMemory) }
{
    match fill_content(alloc, packed, content) {
        Ok(()) => put_with_content::<E>(packed, content, out),
        Err(_) => Err(ConvertFault::OutOfMemory),
    }
}

/// Writes the node that a sighted tile gives over the bytes of `out`, and answers whether it gives
/// one. The buffer is used for the bytes that a compressed node stands for.
///
/// # Errors
/// Only memory can be wanting.
pub fn write_expanded<E: Order>(
    alloc: Global,
    image: &[u8],
    geometry: Geometry,
    addr: u32,
    seen: &Seen<'_>,
    content: &mut Vec<u8>,
    out: &mut Vec<u8>,
) -> Result<bool, ConvertFault>
    requires readable { IsTrue (is_block_size geometry.block) }
    requires sighted { Contains (sightings E.order geometry.block image.now) (addr, seen.now) }
    requires accepted { node_fault E.order geometry.block image.now (addr, seen.now) ≡ None }
    ensures ok { IfOk result (λ is_one. IsFormOf E.order
        (expanded_node E.order geometry.block image.now (addr, seen.now)) out.new.items is_one) }
    ensures memory { IfErr result (λ fault. fault ≡ OutOfMemory) }
{
    match seen {
        Seen::Entry(entry) => put_entry::<E>(out, entry),
        Seen::Inode(inode) => put_inode::<E>(out, inode),
        Seen::Compressed { .. } => {
            let packed = compressed_node::<E>(image, geometry, addr);
            put_compressed::<E>(alloc, &packed, content, out)
        }
        _ => Ok(false),
    }
}

/// How many bytes the data of a sighted tile stand for, where they are compressed; else none.
pub fn content_len<E: Order>(image: &[u8], geometry: Geometry, addr: u32, seen: &Seen<'_>) -> usize
    requires readable { IsTrue (is_block_size geometry.block) }
    requires sighted { Contains (sightings E.order geometry.block image.now) (addr, seen.now) }
    requires accepted { node_fault E.order geometry.block image.now (addr, seen.now) ≡ None }
    ensures { result ≡ length (tile_content E.order geometry.block image.now (addr, seen.now)) }
{
    match seen {
        Seen::Compressed { .. } => compressed_node::<E>(image, geometry, addr).dsize as usize,
        _ => 0,
    }
}

/// The same as `write_expanded`, with the bytes that the data of the tile stand for, which are not
/// decompressed again.
///
/// # Errors
/// Only memory can be wanting.
pub fn write_with_content<E: Order>(
    image: &[u8],
    geometry: Geometry,
    addr: u32,
    seen: &Seen<'_>,
    content: &[u8],
    out: &mut Vec<u8>,
) -> Result<bool, ConvertFault>
    requires readable { IsTrue (is_block_size geometry.block) }
    requires sighted { Contains (sightings E.order geometry.block image.now) (addr, seen.now) }
    requires accepted { node_fault E.order geometry.block image.now (addr, seen.now) ≡ None }
    requires content { content.now
        ≡ tile_content E.order geometry.block image.now (addr, seen.now) }
    ensures ok { IfOk result (λ is_one. IsFormOf E.order
        (expanded_node E.order geometry.block image.now (addr, seen.now)) out.new.items is_one) }
    ensures memory { IfErr result (λ fault. fault ≡ OutOfMemory) }
{
    match seen {
        Seen::Entry(entry) => put_entry::<E>(out, entry),
        Seen::Inode(node) => put_inode::<E>(out, node),
        Seen::Compressed { .. } => {
            let packed = compressed_node::<E>(image, geometry, addr);
            put_with_content::<E>(&packed, content, out)
        }
        _ => Ok(false),
    }
}

/// The node that a sighted tile gives, if it gives one, with the bytes that its data stand for.
pub fn node_with_content<'a, E: Order>(
    image: &[u8],
    geometry: Geometry,
    addr: u32,
    seen: Seen<'a>,
    content: &'a [u8],
) -> Option<NodeRef<'a>>
    requires readable { IsTrue (is_block_size geometry.block) }
    requires sighted { Contains (sightings E.order geometry.block image.now) (addr, seen) }
    requires accepted { node_fault E.order geometry.block image.now (addr, seen) ≡ None }
    requires content { content.now ≡ tile_content E.order geometry.block image.now (addr, seen) }
    ensures { result ≡ expanded_node E.order geometry.block image.now (addr, seen.entry) }
{
    match seen {
        Seen::Entry(entry) => Some(NodeRef::Entry(entry)),
        Seen::Inode(inode) => Some(NodeRef::Inode(inode)),
        Seen::Compressed { .. } => {
            let packed = compressed_node::<E>(image, geometry, addr);
            let fill = Fill::Data(Part::new(content, 0));
            Some(NodeRef::Inode(packed.inode_with(fill)))
        }
        _ => None,
    }
}
