//! Writing a node.

ghost use Rattle.std.specs.Prelude.{◌≡◌, ◌≢◌, ◌≤◌, ◌<◌, ◌^◌, ◌+◌, ◌++◌, ◌↔◌, ◌⊎◌, IsTrue, length, drop, vec_len, vec_capacity, OnOk, OnErr};
ghost use Rattle.flashbase.specs.Crc.{crc_of};
ghost use Rattle.flashbase.specs.Ranges.{IsHalf, IsWord};
ghost use Rattle.jnode.specs.Order.{bytes_in};
ghost use Rattle.jnode.specs.Header.{header_len};
ghost use Rattle.jnode.specs.Reading.{entry_len, inode_len};
ghost use Rattle.jnode.specs.Writing.{header_bytes, entry_front, canonical_entry, object_bytes, time_bytes, range_bytes, inode_front, canonical_inode, clean_marker, padding_node, stored_bytes, stored_compr, totlen_most, FitsEntry, FitsInode, HasNameLength, HoldsRange, IsWritableEntry, IsWritableInode};

use crate::layout::{MAGIC, TOTLEN_MOST, compr, entry, header, inode, nodetype};
use crate::node::{Dirent, Fill, InodeNode};
use crate::order::{Order, u16_bytes, u32_bytes};
use flashbase::{Part, crc};
use thiserror::Error;

/// Why a node is not written. Of several the first is answered.
#[derive(Debug, Drop, Error)]
pub enum WriteFault {
    /// A name that does not have 1 to 254 bytes.
    #[error("N1 Name")]
    Name,
    /// A parent or object of number 0, data that do not have the length of the range, a range that
    /// passes 0xFFFFFFFF, or a node of more than 4,194,304 bytes or fewer than its header.
    #[error("N2 Data")]
    Data,
    #[error("N3 OutOfMemory")]
    OutOfMemory,
}

/// Appends bytes for which there is room.
pub(crate) fn put(out: &mut Vec<u8>, bytes: &[u8])
    requires { vec_len out.old + length bytes.now ≤ vec_capacity out.old }
    ensures items { out.new.items ≡ out.old.items ++ bytes.now }
    ensures len { vec_len out.new ≡ vec_len out.old + length bytes.now }
    ensures capacity { vec_capacity out.old ≤ vec_capacity out.new }
{
    let done = out.extend_from_slice(bytes);
    done.unwrap();
}

pub(crate) fn put_u16<E: Order>(out: &mut Vec<u8>, n: u16)
    requires { vec_len out.old + 2 ≤ vec_capacity out.old }
    ensures items { out.new.items ≡ out.old.items ++ bytes_in E.order 2 n }
    ensures len { vec_len out.new ≡ vec_len out.old + 2 }
    ensures capacity { vec_capacity out.old ≤ vec_capacity out.new }
{
    put(out, &u16_bytes::<E>(n));
}

pub(crate) fn put_u32<E: Order>(out: &mut Vec<u8>, n: u32)
    requires { vec_len out.old + 4 ≤ vec_capacity out.old }
    ensures items { out.new.items ≡ out.old.items ++ bytes_in E.order 4 n }
    ensures len { vec_len out.new ≡ vec_len out.old + 4 }
    ensures capacity { vec_capacity out.old ≤ vec_capacity out.new }
{
    put(out, &u32_bytes::<E>(n));
}

/// Appends the checksum of the bytes from `start` on.
fn put_crc<E: Order>(out: &mut Vec<u8>, start: usize)
    requires room { vec_len out.old + 4 ≤ vec_capacity out.old }
    requires within { start ≤ vec_len out.old }
    ensures items { out.new.items
        ≡ out.old.items ++ bytes_in E.order 4 (crc_of (drop start out.old.items)) }
    ensures len { vec_len out.new ≡ vec_len out.old + 4 }
    ensures capacity { vec_capacity out.old ≤ vec_capacity out.new }
{
    let sum = crc_since(out, start);
    put_u32::<E>(out, sum);
}

#[tactic(auto, unfolding(crate::specs::Writing::header_bytes))]
pub(crate) fn put_header<E: Order>(out: &mut Vec<u8>, nodetype: u16, totlen: u32)
    requires { vec_len out.old + header_len ≤ vec_capacity out.old }
    ensures items { out.new.items ≡ out.old.items ++ header_bytes E.order nodetype totlen }
    ensures len { vec_len out.new ≡ vec_len out.old + header_len }
    ensures capacity { vec_capacity out.old ≤ vec_capacity out.new }
{
    let start = out.len();
    put_u16::<E>(out, MAGIC);
    put_u16::<E>(out, nodetype);
    put_u32::<E>(out, totlen);
    put_crc::<E>(out, start);
}

#[tactic(auto, unfolding(crate::specs::Writing::entry_front))]
fn put_entry_front<E: Order>(out: &mut Vec<u8>, node: &Dirent<'_>)
    requires room { vec_len out.old + 32 ≤ vec_capacity out.old }
    requires name { length node.now.name ≤ 254 }
    ensures items { out.new.items ≡ out.old.items ++ entry_front E.order node.now }
    ensures len { vec_len out.new ≡ vec_len out.old + 32 }
    ensures capacity { vec_capacity out.old ≤ vec_capacity out.new }
{
    let nsize = node.name.len() as u8;
    put_header::<E>(out, nodetype::DIRENT, entry::LEN as u32 + u32::from(nsize));
    put_u32::<E>(out, node.pino);
    put_u32::<E>(out, node.version);
    put_u32::<E>(out, node.ino);
    put_u32::<E>(out, node.mctime);
    put(out, &[nsize, node.kind, 0, 0]);
}

#[tactic(auto, unfolding(crate::specs::Writing::canonical_entry))]
fn put_entry<E: Order>(out: &mut Vec<u8>, node: &Dirent<'_>)
    requires room { vec_len out.old + (entry_len + length node.now.name) ≤ vec_capacity out.old }
    requires name { length node.now.name ≤ 254 }
    ensures items { out.new.items ≡ out.old.items ++ canonical_entry E.order node.now }
    ensures capacity { vec_capacity out.old ≤ vec_capacity out.new }
{
    let start = out.len();
    let name = &node.name;
    put_entry_front::<E>(out, node);
    put_crc::<E>(out, start);
    put_u32::<E>(out, name.crc());
    name.put_onto(out);
}

/// Appends the written form of an entry node. A refusal leaves `out` as it was.
pub fn write_entry<E: Order>(out: &mut Vec<u8>, node: &Dirent<'_>) -> Result<(), WriteFault>
    ensures ok { OnOk result (out.new.items ≡ out.old.items ++ canonical_entry E.order node.now) }
    ensures capacity { OnOk result (vec_capacity out.old ≤ vec_capacity out.new) }
    ensures writable { OnOk result (IsWritableEntry node.now) }
    ensures fits { OnOk result (FitsEntry node.now) }
    ensures err { OnErr result (out.new.items ≡ out.old.items) }

    // The first of these that applies is answered.
    ensures name { (result ≡ Err WriteFault.Name) ↔ (¬ HasNameLength node.now) }
    ensures data { (result ≡ Err WriteFault.Data) ↔ (HasNameLength node.now × (node.now.pino ≡ 0)) }
    // Memory was wanting only where the room was.
    ensures memory { result ≡ Err WriteFault.OutOfMemory
        → vec_capacity out.old < vec_len out.old + (entry_len + length node.now.name) }
{
    let name = &node.name;
    let size = name.len();
    if size == 0 || size > usize::from(entry::NAME_MOST) {
        return Err(WriteFault::Name);
    }
    if node.pino == 0 {
        return Err(WriteFault::Data);
    }
    out.reserve(entry::LEN + size)
        .map_err(|_| WriteFault::OutOfMemory)?;
    put_entry::<E>(out, node);
    Ok(())
}

fn stored_len(fill: &Fill<'_>) -> usize
    ensures { result ≡ length (stored_bytes fill.now) }
{
    match fill {
        Fill::Zero => 0,
        Fill::Data(data) => data.len(),
    }
}

fn stored_crc(fill: &Fill<'_>) -> u32
    ensures { result ≡ crc_of (stored_bytes fill.now) }
{
    match fill {
        Fill::Zero => crc(&[]),
        Fill::Data(data) => data.crc(),
    }
}

fn stored_compr(fill: &Fill<'_>) -> u8
    ensures { result ≡ stored_compr fill.now }
{
    match fill {
        Fill::Zero => compr::ZERO,
        Fill::Data(_) => compr::NONE,
    }
}

fn put_stored(out: &mut Vec<u8>, fill: &Fill<'_>)
    requires { vec_len out.old + length (stored_bytes fill.now) ≤ vec_capacity out.old }
    ensures items { out.new.items ≡ out.old.items ++ stored_bytes fill.now }
    ensures capacity { vec_capacity out.old ≤ vec_capacity out.new }
{
    match fill {
        Fill::Zero => {}
        Fill::Data(data) => data.put_onto(out),
    }
}

#[tactic(auto, unfolding(crate::specs::Writing::object_bytes))]
pub(crate) fn put_object<E: Order>(out: &mut Vec<u8>, node: &InodeNode<'_>)
    requires { vec_len out.old + 16 ≤ vec_capacity out.old }
    ensures items { out.new.items ≡ out.old.items ++ object_bytes E.order node.now }
    ensures len { vec_len out.new ≡ vec_len out.old + 16 }
    ensures capacity { vec_capacity out.old ≤ vec_capacity out.new }

    // What the types of its fields say.
    ensures ino { IsWord node.now.ino }
    ensures version { IsWord node.now.version }
    ensures mode { IsWord node.now.mode }
    ensures uid { IsHalf node.now.uid }
    ensures gid { IsHalf node.now.gid }
{
    put_u32::<E>(out, node.ino);
    put_u32::<E>(out, node.version);
    put_u32::<E>(out, node.mode);
    put_u16::<E>(out, node.uid);
    put_u16::<E>(out, node.gid);
}

#[tactic(auto, unfolding(crate::specs::Writing::time_bytes))]
pub(crate) fn put_times<E: Order>(out: &mut Vec<u8>, node: &InodeNode<'_>)
    requires { vec_len out.old + 16 ≤ vec_capacity out.old }
    ensures items { out.new.items ≡ out.old.items ++ time_bytes E.order node.now }
    ensures len { vec_len out.new ≡ vec_len out.old + 16 }
    ensures capacity { vec_capacity out.old ≤ vec_capacity out.new }

    // What the types of its fields say.
    ensures isize { IsWord node.now.isize }
    ensures atime { IsWord node.now.atime }
    ensures mtime { IsWord node.now.mtime }
    ensures ctime { IsWord node.now.ctime }
{
    put_u32::<E>(out, node.isize);
    put_u32::<E>(out, node.atime);
    put_u32::<E>(out, node.mtime);
    put_u32::<E>(out, node.ctime);
}

#[tactic(auto, unfolding(crate::specs::Writing::range_bytes))]
fn put_range<E: Order>(out: &mut Vec<u8>, node: &InodeNode<'_>)
    requires room { vec_len out.old + 16 ≤ vec_capacity out.old }
    requires long { inode_len + length (stored_bytes node.now.fill) ≤ totlen_most }
    ensures items { out.new.items ≡ out.old.items ++ range_bytes E.order node.now }
    ensures len { vec_len out.new ≡ vec_len out.old + 16 }
    ensures capacity { vec_capacity out.old ≤ vec_capacity out.new }

    // What the types of its fields say.
    ensures offset { IsWord node.now.offset }
    ensures dsize { IsWord node.now.dsize }
{
    let csize = stored_len(&node.fill) as u32;
    put_u32::<E>(out, node.offset);
    put_u32::<E>(out, csize);
    put_u32::<E>(out, node.dsize);
    put(out, &[stored_compr(&node.fill), 0, 0, 0]);
}

#[tactic(auto, unfolding(crate::specs::Writing::inode_front))]
fn put_inode_front<E: Order>(out: &mut Vec<u8>, node: &InodeNode<'_>)
    requires room { vec_len out.old + 60 ≤ vec_capacity out.old }
    requires long { inode_len + length (stored_bytes node.now.fill) ≤ totlen_most }
    ensures items { out.new.items ≡ out.old.items ++ inode_front E.order node.now }
    ensures len { vec_len out.new ≡ vec_len out.old + 60 }
    ensures capacity { vec_capacity out.old ≤ vec_capacity out.new }
    ensures fits { FitsInode node.now }
{
    let csize = stored_len(&node.fill) as u32;
    put_header::<E>(out, nodetype::INODE, inode::LEN as u32 + csize);
    put_object::<E>(out, node);
    put_times::<E>(out, node);
    put_range::<E>(out, node);
}

/// The checksum of the bytes from `start` on.
pub(crate) fn crc_since(out: &Vec<u8>, start: usize) -> u32
    requires { start ≤ vec_len out.now }
    ensures { result ≡ crc_of (drop start out.now.items) }
{
    crc(&out[start..])
}

#[tactic(auto, unfolding(crate::specs::Writing::canonical_inode))]
fn put_inode<E: Order>(out: &mut Vec<u8>, node: &InodeNode<'_>)
    requires room { vec_len out.old + (inode_len + length (stored_bytes node.now.fill))
        ≤ vec_capacity out.old }
    requires long { inode_len + length (stored_bytes node.now.fill) ≤ totlen_most }
    ensures items { out.new.items ≡ out.old.items ++ canonical_inode E.order node.now }
    ensures capacity { vec_capacity out.old ≤ vec_capacity out.new }
    ensures fits { FitsInode node.now }
{
    let start = out.len();
    put_inode_front::<E>(out, node);
    let node_crc = crc_since(out, start);
    put_u32::<E>(out, stored_crc(&node.fill));
    put_u32::<E>(out, node_crc);
    put_stored(out, &node.fill);
}

fn holds_range(fill: &Fill<'_>, dsize: u32) -> bool
    ensures { IsTrue result ↔ HoldsRange fill.now dsize }
{
    match fill {
        Fill::Zero => true,
        Fill::Data(data) => data.len() == dsize as usize,
    }
}

fn is_writable_inode(node: &InodeNode<'_>) -> bool
    ensures { IsTrue result ↔ IsWritableInode node.now }
{
    node.ino != 0
        && u64::from(node.offset) + u64::from(node.dsize) <= 0xFFFF_FFFF
        && holds_range(&node.fill, node.dsize)
        && stored_len(&node.fill) <= TOTLEN_MOST - inode::LEN
}

/// Appends the written form of an inode node. A refusal leaves `out` as it was.
pub fn write_inode<E: Order>(out: &mut Vec<u8>, node: &InodeNode<'_>) -> Result<(), WriteFault>
    ensures ok { OnOk result (out.new.items ≡ out.old.items ++ canonical_inode E.order node.now) }
    ensures capacity { OnOk result (vec_capacity out.old ≤ vec_capacity out.new) }
    ensures writable { OnOk result (IsWritableInode node.now) }
    ensures fits { OnOk result (FitsInode node.now) }
    ensures err { OnErr result (out.new.items ≡ out.old.items) }

    // Which refusal it is.
    ensures name { result ≢ Err WriteFault.Name }
    ensures data { (result ≡ Err WriteFault.Data) ↔ (¬ IsWritableInode node.now) }
    // Memory was wanting only where the room was.
    ensures memory { result ≡ Err WriteFault.OutOfMemory
        → vec_capacity out.old
        < vec_len out.old + (inode_len + length (stored_bytes node.now.fill)) }
{
    if !is_writable_inode(node) {
        return Err(WriteFault::Data);
    }
    let size = inode::LEN + stored_len(&node.fill);
    out.reserve(size).map_err(|_| WriteFault::OutOfMemory)?;
    put_inode::<E>(out, node);
    Ok(())
}

/// Appends the clean marker. A refusal leaves `out` as it was.
pub fn write_marker<E: Order>(out: &mut Vec<u8>) -> Result<(), WriteFault>
    ensures ok { OnOk result (out.new.items ≡ out.old.items ++ clean_marker E.order) }
    ensures capacity { OnOk result (vec_capacity out.old ≤ vec_capacity out.new) }
    ensures err { OnErr result (out.new.items ≡ out.old.items) }
    ensures memory { OnErr result ((result ≡ Err WriteFault.OutOfMemory)
        × (vec_capacity out.old < vec_len out.old + header_len)) }
{
    out.reserve(header::LEN)
        .map_err(|_| WriteFault::OutOfMemory)?;
    put_header::<E>(out, nodetype::CLEANMARKER, header::LEN as u32);
    Ok(())
}

/// The bytes of the clean marker.
#[tactic(auto, unfolding(crate::specs::Writing::header_bytes))]
pub fn marker_bytes<E: Order>() -> [u8; header::LEN]
    ensures { result ≡ clean_marker E.order }
{
    let [a, b] = u16_bytes::<E>(MAGIC);
    let [c, d] = u16_bytes::<E>(nodetype::CLEANMARKER);
    let [e, f, g, h] = u32_bytes::<E>(header::LEN as u32);
    let [i, j, k, l] = u32_bytes::<E>(crc(&[a, b, c, d, e, f, g, h]));
    [a, b, c, d, e, f, g, h, i, j, k, l]
}

/// Appends a padding node of `totlen` bytes. A refusal leaves `out` as it was.
pub fn write_padding<E: Order>(out: &mut Vec<u8>, totlen: u32) -> Result<(), WriteFault>
    ensures ok { OnOk result (out.new.items ≡ out.old.items ++ padding_node E.order totlen) }
    ensures capacity { OnOk result (vec_capacity out.old ≤ vec_capacity out.new) }
    ensures err { OnErr result (out.new.items ≡ out.old.items) }

    // Which refusal it is.
    ensures name { result ≢ Err WriteFault.Name }
    ensures data { (result ≡ Err WriteFault.Data)
        ↔ ((totlen < header_len) ⊎ (totlen_most < totlen)) }
    // Memory was wanting only where the room was.
    ensures memory { result ≡ Err WriteFault.OutOfMemory
        → vec_capacity out.old < vec_len out.old + totlen }
{
    let size = totlen as usize;
    if size < header::LEN || size > TOTLEN_MOST {
        return Err(WriteFault::Data);
    }
    out.reserve(size).map_err(|_| WriteFault::OutOfMemory)?;
    put_header::<E>(out, nodetype::PADDING, totlen);
    Part::new(&[], size - header::LEN).put_onto(out);
    Ok(())
}
