//! Inode nodes whose data are compressed, read and written.

ghost use Rattle.std.specs.Prelude.{◌≡◌, ◌≢◌, ◌≤◌, ◌<◌, ◌+◌, ◌++◌, ◌%◌, ◌↔◌, ℕ, Some, None, IsTrue, length, vec_len, vec_capacity, OnOk, OnErr, IfSome};
ghost use Rattle.flashbase.specs.Ranges.{IsWord};
ghost use Rattle.jnode.specs.Header.{IsGood};
ghost use Rattle.jnode.specs.Reading.{inode_len, csize_of, seen_of, tile_of};
ghost use Rattle.jnode.specs.Writing.{totlen_most};
ghost use Rattle.jnode.specs.Compressed.{compressed_of, compressed_seen, ReadsCompressedNode, compressed_range_bytes, compressed_front, canonical_compressed, FitsCompressed, IsWritableCompressed};
ghost use Rattle.jnode.specs.declared.node.CompressedNode.{CompressedNode};

use crate::layout::{TOTLEN_MOST, compr, header, inode, nodetype};
use crate::node::{CompressedNode, Fill, Seen};
use crate::order::{Order, byte_in, u16_in, u32_in, whole};
use crate::reading::{read_part, stored_data};
use crate::writing::{WriteFault, crc_since, put, put_header, put_object, put_times, put_u32};
use flashbase::{Part, pad4};

fn compressed<'a, E: Order>(tile: &Part<'a>) -> CompressedNode<'a>
    requires { inode_len + csize_of E.order tile.now ≤ length tile.now }
    ensures { result ≡ compressed_of E.order tile.now }
{
    CompressedNode {
        ino: u32_in::<E>(tile, inode::INO),
        version: u32_in::<E>(tile, inode::VERSION),
        mode: u32_in::<E>(tile, inode::MODE),
        uid: u16_in::<E>(tile, inode::UID),
        gid: u16_in::<E>(tile, inode::GID),
        isize: u32_in::<E>(tile, inode::ISIZE),
        atime: u32_in::<E>(tile, inode::ATIME),
        mtime: u32_in::<E>(tile, inode::MTIME),
        ctime: u32_in::<E>(tile, inode::CTIME),
        offset: u32_in::<E>(tile, inode::OFFSET),
        dsize: u32_in::<E>(tile, inode::DSIZE),
        compr: byte_in(tile, inode::COMPR),
        data: stored_data::<E>(tile),
    }
}

/// The node at the start of a part, the rest of a block, that `read_part` answers as compressed. No
/// check is made again.
pub fn compressed_fields<'a, E: Order>(rest: &Part<'a>) -> CompressedNode<'a>
    requires good { IsGood E.order rest.now }
    requires words { length rest.now % 4 ≡ 0 }
    requires seen { (compr : ℕ)
        × (seen_of E.order (tile_of E.order rest.now) ≡ Seen.Compressed compr) }
    ensures { result ≡ compressed_of E.order (tile_of E.order rest.now) }
{
    let end = pad4(u32_in::<E>(rest, header::TOTLEN)) as usize;
    compressed::<E>(&rest.slice(0, end))
}

fn found_in<'a, E: Order>(rest: &Part<'a>) -> Option<CompressedNode<'a>>
    requires good { IsGood E.order rest.now }
    requires words { length rest.now % 4 ≡ 0 }
    ensures { result ≡ compressed_seen E.order (tile_of E.order rest.now) }
{
    match read_part::<E>(rest) {
        Seen::Compressed { .. } => Some(compressed_fields::<E>(rest)),
        _ => None,
    }
}

/// The node with a good header at the start of these bytes, the rest of a block, where `read_node`
/// answers that it is compressed.
pub fn compressed_at<E: Order>(bytes: &[u8]) -> Option<CompressedNode<'_>>
    requires good { IsGood E.order bytes.now }
    requires words { length bytes.now % 4 ≡ 0 }
    ensures node { (node : CompressedNode) → (result ≡ Some node)
        ↔ ReadsCompressedNode E.order (tile_of E.order bytes.now) node }
    // It is the node that is seen, with its compression, and there is none where none is seen.
    ensures seen { IfSome result
        (λ node. seen_of E.order (tile_of E.order bytes.now) ≡ Seen.Compressed node.compr) }
    ensures none { result ≡ None
        → (compr : ℕ) → seen_of E.order (tile_of E.order bytes.now) ≢ Seen.Compressed compr }
    ensures exact { result ≡ compressed_seen E.order (tile_of E.order bytes.now) }
{
    found_in::<E>(&whole(bytes))
}

#[tactic(auto, unfolding(crate::specs::Compressed::compressed_range_bytes))]
fn put_compressed_range<E: Order>(out: &mut Vec<u8>, node: &CompressedNode<'_>)
    requires room { vec_len out.old + 16 ≤ vec_capacity out.old }
    requires long { inode_len + length node.now.data ≤ totlen_most }
    ensures items { out.new.items ≡ out.old.items ++ compressed_range_bytes E.order node.now }
    ensures len { vec_len out.new ≡ vec_len out.old + 16 }
    ensures capacity { vec_capacity out.old ≤ vec_capacity out.new }

    // What the types of its fields say.
    ensures offset { IsWord node.now.offset }
    ensures dsize { IsWord node.now.dsize }
    ensures compr { node.now.compr < 256 }
{
    put_u32::<E>(out, node.offset);
    put_u32::<E>(out, node.data.len() as u32);
    put_u32::<E>(out, node.dsize);
    put(out, &[node.compr, 0, 0, 0]);
}

#[tactic(auto, unfolding(crate::specs::Compressed::compressed_front))]
fn put_compressed_front<E: Order>(out: &mut Vec<u8>, node: &CompressedNode<'_>)
    requires room { vec_len out.old + 60 ≤ vec_capacity out.old }
    requires long { inode_len + length node.now.data ≤ totlen_most }
    ensures items { out.new.items ≡ out.old.items ++ compressed_front E.order node.now }
    ensures len { vec_len out.new ≡ vec_len out.old + 60 }
    ensures capacity { vec_capacity out.old ≤ vec_capacity out.new }
    ensures fits { FitsCompressed node.now }
{
    let fields = node.inode_with(Fill::Zero);
    put_header::<E>(
        out,
        nodetype::INODE,
        inode::LEN as u32 + node.data.len() as u32,
    );
    put_object::<E>(out, &fields);
    put_times::<E>(out, &fields);
    put_compressed_range::<E>(out, node);
}

#[tactic(auto, unfolding(crate::specs::Compressed::canonical_compressed))]
fn put_compressed<E: Order>(out: &mut Vec<u8>, node: &CompressedNode<'_>)
    requires room { vec_len out.old + (inode_len + length node.now.data) ≤ vec_capacity out.old }
    requires long { inode_len + length node.now.data ≤ totlen_most }
    ensures items { out.new.items ≡ out.old.items ++ canonical_compressed E.order node.now }
    ensures capacity { vec_capacity out.old ≤ vec_capacity out.new }
    ensures fits { FitsCompressed node.now }
{
    let start = out.len();
    put_compressed_front::<E>(out, node);
    let node_crc = crc_since(out, start);
    put_u32::<E>(out, node.data.crc());
    put_u32::<E>(out, node_crc);
    node.data.put_onto(out);
}

fn is_writable_compressed(node: &CompressedNode<'_>) -> bool
    ensures { IsTrue result ↔ IsWritableCompressed node.now }
{
    node.ino != 0
        && u64::from(node.offset) + u64::from(node.dsize) <= 0xFFFF_FFFF
        && node.data.len() <= TOTLEN_MOST - inode::LEN
        && node.compr != compr::NONE
        && node.compr != compr::ZERO
}

/// Appends the written form of a compressed node. A refusal leaves `out` as it was.
///
/// # Errors
/// `Data` for an object of number 0, a range that passes 0xFFFFFFFF, a node of more than 4,194,304
/// bytes, or the number of no compression.
pub fn write_compressed<E: Order>(
    out: &mut Vec<u8>,
    node: &CompressedNode<'_>,
) -> Result<(), WriteFault>
    ensures ok { OnOk result
        (out.new.items ≡ out.old.items ++ canonical_compressed E.order node.now) }
    ensures capacity { OnOk result (vec_capacity out.old ≤ vec_capacity out.new) }
    ensures writable { OnOk result (IsWritableCompressed node.now) }
    ensures fits { OnOk result (FitsCompressed node.now) }
    ensures err { OnErr result (out.new.items ≡ out.old.items) }

    // Which refusal it is.
    ensures name { result ≢ Err WriteFault.Name }
    ensures data { (result ≡ Err WriteFault.Data) ↔ (¬ IsWritableCompressed node.now) }
    // Memory was wanting only where the room was.
    ensures memory { result ≡ Err WriteFault.OutOfMemory
        → vec_capacity out.old < vec_len out.old + (inode_len + length node.now.data) }
{
    if !is_writable_compressed(node) {
        return Err(WriteFault::Data);
    }
    out.reserve(inode::LEN + node.data.len())
        .map_err(|_| WriteFault::OutOfMemory)?;
    put_compressed::<E>(out, node);
    Ok(())
}
