//! Reading a node.

ghost use Rattle.std.specs.Prelude.{◌≡◌, ◌≤◌, ◌↔◌, ◌<◌, ◌^◌, ◌+◌, ◌%◌, ℕ, IsTrue, length, take, drop};
ghost use Rattle.flashbase.specs.Bytes.{pad4_of};
ghost use Rattle.jnode.specs.Header.{IsGood};
ghost use Rattle.jnode.specs.Reading.{data_of, ReadsEntry, ReadsInode, ReadsCompressed, csize_of, inode_of, inode_seen, is_inode_long, is_inode_in_range, is_data_crc_right, passed_seen, other_seen, plain_seen, dirent_of, is_entry_long, is_crc_right, is_size_right, is_entry_in_range, nsize_of, entry_seen, seen_of, tile_of, entry_len, inode_len, IsWhole};
ghost use Rattle.jnode.specs.declared.node.Dirent.{Dirent};
ghost use Rattle.jnode.specs.declared.node.InodeNode.{InodeNode};

use crate::header::is_accurate;
use crate::layout::{compr, entry, header, inode, nodetype};
use crate::node::{Damage, Dirent, Fill, InodeNode, Seen};
use crate::order::{Order, byte_in, u16_in, u32_in, whole};
use flashbase::{Part, pad4};

fn damaged<'a>(which: Damage) -> Seen<'a>
    ensures { result ≡ Seen.Damaged which }
{
    Seen::Damaged { which }
}

fn dirent<'a, E: Order>(tile: &Part<'a>) -> Dirent<'a>
    requires { entry_len + nsize_of tile.now ≤ length tile.now }
    ensures { result ≡ dirent_of E.order tile.now }
{
    let nsize = usize::from(byte_in(tile, entry::NSIZE));
    Dirent {
        pino: u32_in::<E>(tile, entry::PINO),
        version: u32_in::<E>(tile, entry::VERSION),
        ino: u32_in::<E>(tile, entry::INO),
        mctime: u32_in::<E>(tile, entry::MCTIME),
        kind: byte_in(tile, entry::KIND),
        name: tile.slice(entry::LEN, nsize),
    }
}

#[tactic(auto, unfolding(crate::specs::Reading::is_entry_long))]
fn is_entry_long<E: Order>(tile: &Part<'_>) -> bool
    requires { IsWhole E.order tile.now }
    ensures test { result ≡ is_entry_long E.order tile.now }
    ensures room { IsTrue result → entry_len ≤ length tile.now }
{
    entry::LEN <= u32_in::<E>(tile, header::TOTLEN) as usize
}

#[tactic(auto, unfolding(crate::specs::Reading::is_crc_right))]
fn is_crc_right<E: Order>(tile: &Part<'_>, place: usize, from: usize, len: usize) -> bool
    requires room { place + 4 ≤ length tile.now }
    requires covered { from + len ≤ length tile.now }
    ensures { result ≡ is_crc_right E.order tile.now place (take len (drop from tile.now)) }
{
    u32_in::<E>(tile, place) == tile.slice(from, len).crc()
}

#[tactic(auto, unfolding(flashbase::specs::Bytes::pad4_of))]
fn padded(n: u64) -> u64
    requires { n < 2 ^ 63 }
    ensures { result ≡ pad4_of n }
{
    (n + 3) / 4 * 4
}

#[tactic(auto, using(crate::proofs::TileLemmas::size_fits), unfolding(crate::specs::Reading::is_size_right))]
fn is_size_right<E: Order>(tile: &Part<'_>, size: u64) -> bool
    requires whole { IsWhole E.order tile.now }
    requires small { size < 2 ^ 63 }
    ensures test { result ≡ is_size_right E.order tile.now size }
    ensures room { IsTrue result → size ≤ length tile.now }
{
    padded(size) == pad4(u32_in::<E>(tile, header::TOTLEN))
}

#[tactic(auto, unfolding(crate::specs::Reading::is_entry_in_range))]
fn is_entry_in_range<E: Order>(tile: &Part<'_>) -> bool
    requires { entry_len ≤ length tile.now }
    ensures { result ≡ is_entry_in_range E.order tile.now }
{
    1 <= byte_in(tile, entry::NSIZE)
        && byte_in(tile, entry::NSIZE) <= entry::NAME_MOST
        && 0 < u32_in::<E>(tile, entry::PINO)
}

#[tactic(auto, unfolding(crate::specs::Reading::entry_seen))]
fn entry_seen<'a, E: Order>(tile: &Part<'a>) -> Seen<'a>
    requires { IsWhole E.order tile.now }
    ensures { result ≡ entry_seen E.order tile.now }
{
    if !is_entry_long::<E>(tile) {
        return damaged(Damage::Length);
    }
    if !is_crc_right::<E>(tile, entry::NODE_CRC, 0, entry::NODE_CRC) {
        return damaged(Damage::NodeCrc);
    }
    let nsize = byte_in(tile, entry::NSIZE);
    if !is_size_right::<E>(tile, entry::LEN as u64 + u64::from(nsize)) {
        return damaged(Damage::Length);
    }
    if !is_entry_in_range::<E>(tile) {
        return damaged(Damage::Range);
    }
    if !is_crc_right::<E>(tile, entry::NAME_CRC, entry::LEN, usize::from(nsize)) {
        return damaged(Damage::NameCrc);
    }
    Seen::Entry(dirent::<E>(tile))
}

fn inode<'a, E: Order>(tile: &Part<'_>, fill: Fill<'a>) -> InodeNode<'a>
    requires { inode_len ≤ length tile.now }
    ensures { result ≡ inode_of E.order tile.now fill.entry }
{
    InodeNode {
        ino: u32_in::<E>(tile, inode::INO),
        version: u32_in::<E>(tile, inode::VERSION),
        mode: u32_in::<E>(tile, inode::MODE),
        uid: u16_in::<E>(tile, inode::UID),
        gid: u16_in::<E>(tile, inode::GID),
        isize: u32_in::<E>(tile, inode::ISIZE),
        atime: u32_in::<E>(tile, inode::ATIME),
        mtime: u32_in::<E>(tile, inode::MTIME),
        ctime: u32_in::<E>(tile, inode::CTIME),
        offset: u32_in::<E>(tile, inode::OFFSET),
        dsize: u32_in::<E>(tile, inode::DSIZE),
        fill,
    }
}

#[tactic(auto, unfolding(crate::specs::Reading::is_inode_long))]
fn is_inode_long<E: Order>(tile: &Part<'_>) -> bool
    requires { IsWhole E.order tile.now }
    ensures test { result ≡ is_inode_long E.order tile.now }
    ensures room { IsTrue result → inode_len ≤ length tile.now }
{
    inode::LEN <= u32_in::<E>(tile, header::TOTLEN) as usize
}

#[tactic(auto, unfolding(crate::specs::Reading::is_inode_in_range))]
fn is_inode_in_range<E: Order>(tile: &Part<'_>) -> bool
    requires { inode_len ≤ length tile.now }
    ensures { result ≡ is_inode_in_range E.order tile.now }
{
    let dsize = u32_in::<E>(tile, inode::DSIZE);
    0 < u32_in::<E>(tile, inode::INO)
        && u64::from(u32_in::<E>(tile, inode::OFFSET)) + u64::from(dsize) <= 0xFFFF_FFFF
        && (byte_in(tile, inode::COMPR) != compr::NONE || u32_in::<E>(tile, inode::CSIZE) == dsize)
}

#[tactic(auto, unfolding(crate::specs::Reading::is_data_crc_right))]
fn is_data_crc_right<E: Order>(tile: &Part<'_>) -> bool
    requires { inode_len + csize_of E.order tile.now ≤ length tile.now }
    ensures { result ≡ is_data_crc_right E.order tile.now }
{
    let csize = u32_in::<E>(tile, inode::CSIZE);
    csize == 0 || is_crc_right::<E>(tile, inode::DATA_CRC, inode::LEN, csize as usize)
}

pub(crate) fn stored_data<'a, E: Order>(tile: &Part<'a>) -> Part<'a>
    requires { inode_len + csize_of E.order tile.now ≤ length tile.now }
    ensures { result ≡ data_of E.order tile.now }
{
    let csize = u32_in::<E>(tile, inode::CSIZE) as usize;
    tile.slice(inode::LEN, csize)
}

#[tactic(auto, unfolding(crate::specs::Reading::passed_seen))]
fn passed_seen<'a, E: Order>(tile: &Part<'a>) -> Seen<'a>
    requires { inode_len + csize_of E.order tile.now ≤ length tile.now }
    ensures { result ≡ passed_seen E.order tile.now }
{
    let compr = byte_in(tile, inode::COMPR);
    if compr == compr::NONE {
        Seen::Inode(inode::<E>(tile, Fill::Data(stored_data::<E>(tile))))
    } else if compr == compr::ZERO {
        Seen::Inode(inode::<E>(tile, Fill::Zero))
    } else {
        Seen::Compressed { compr }
    }
}

#[tactic(auto, unfolding(crate::specs::Reading::inode_seen))]
fn inode_seen<'a, E: Order>(tile: &Part<'a>) -> Seen<'a>
    requires { IsWhole E.order tile.now }
    ensures { result ≡ inode_seen E.order tile.now }
{
    if !is_inode_long::<E>(tile) {
        return damaged(Damage::Length);
    }
    if !is_crc_right::<E>(tile, inode::NODE_CRC, 0, inode::COVERED) {
        return damaged(Damage::NodeCrc);
    }
    if !is_size_right::<E>(
        tile,
        inode::LEN as u64 + u64::from(u32_in::<E>(tile, inode::CSIZE)),
    ) {
        return damaged(Damage::Length);
    }
    if !is_inode_in_range::<E>(tile) {
        return damaged(Damage::Range);
    }
    if !is_data_crc_right::<E>(tile) {
        return damaged(Damage::DataCrc);
    }
    passed_seen::<E>(tile)
}

#[tactic(auto, unfolding(crate::specs::Reading::other_seen))]
fn other_seen<'a>(nodetype: u16) -> Seen<'a>
    ensures { result ≡ other_seen nodetype }
{
    match nodetype & nodetype::COMPAT_MASK {
        nodetype::INCOMPAT => Seen::Incompatible { nodetype },
        nodetype::ROCOMPAT => Seen::ReadOnly { nodetype },
        _ => Seen::Skippable { nodetype },
    }
}

#[tactic(auto, unfolding(crate::specs::Reading::plain_seen))]
fn plain_seen<'a>(nodetype: u16) -> Seen<'a>
    ensures { result ≡ plain_seen nodetype }
{
    match nodetype {
        nodetype::CLEANMARKER => Seen::Marker,
        nodetype::PADDING => Seen::Padding,
        nodetype::SUMMARY => Seen::Skippable { nodetype },
        nodetype::XATTR | nodetype::XREF => Seen::Attribute,
        _ => other_seen(nodetype),
    }
}

#[tactic(auto, unfolding(crate::specs::Reading::seen_of))]
fn tile_seen<'a, E: Order>(tile: &Part<'a>) -> Seen<'a>
    requires { IsWhole E.order tile.now }
    ensures { result ≡ seen_of E.order tile.now }
{
    let nodetype = u16_in::<E>(tile, header::NODETYPE);
    if !is_accurate(nodetype) {
        Seen::Obsolete
    } else if nodetype == nodetype::DIRENT {
        entry_seen::<E>(tile)
    } else if nodetype == nodetype::INODE {
        inode_seen::<E>(tile)
    } else {
        plain_seen(nodetype)
    }
}

#[tactic(auto, using(crate::proofs::TileLemmas::tile_whole))]
fn rest_seen<'a, E: Order>(rest: &Part<'a>) -> Seen<'a>
    requires good { IsGood E.order rest.now }
    requires words { length rest.now % 4 ≡ 0 }
    ensures { result ≡ seen_of E.order (tile_of E.order rest.now) }
{
    let end = pad4(u32_in::<E>(rest, header::TOTLEN)) as usize;
    tile_seen::<E>(&rest.slice(0, end))
}

/// What the node with a good header at the start of a part, the rest of a block, is seen as. Its
/// name and its data are handed out as parts of that part.
pub fn read_part<'a, E: Order>(rest: &Part<'a>) -> Seen<'a>
    requires good { IsGood E.order rest.now }
    requires words { length rest.now % 4 ≡ 0 }
    // An entry node is answered exactly where the tile reads as that node, and so is an inode node.
    ensures entry { (node : Dirent) → (result ≡ Seen.Entry node)
        ↔ ReadsEntry E.order (tile_of E.order rest.now) node }
    ensures inode { (node : InodeNode) → (result ≡ Seen.Inode node)
        ↔ ReadsInode E.order (tile_of E.order rest.now) node }
    ensures compressed { (compr : ℕ) → (result ≡ Seen.Compressed compr)
        ↔ ReadsCompressed E.order (tile_of E.order rest.now) compr }
    // Which answer it is in any case.
    ensures exact { result ≡ seen_of E.order (tile_of E.order rest.now) }
{
    rest_seen::<E>(rest)
}

/// What the node with a good header at the start of these bytes, the rest of a block, is seen as.
pub fn read_node<E: Order>(bytes: &[u8]) -> Seen<'_>
    requires good { IsGood E.order bytes.now }
    requires words { length bytes.now % 4 ≡ 0 }
    // An entry node is answered exactly where the tile reads as that node, and so is an inode node.
    ensures entry { (node : Dirent) → (result ≡ Seen.Entry node)
        ↔ ReadsEntry E.order (tile_of E.order bytes.now) node }
    ensures inode { (node : InodeNode) → (result ≡ Seen.Inode node)
        ↔ ReadsInode E.order (tile_of E.order bytes.now) node }
    ensures compressed { (compr : ℕ) → (result ≡ Seen.Compressed compr)
        ↔ ReadsCompressed E.order (tile_of E.order bytes.now) compr }
    // Which answer it is in any case.
    ensures exact { result ≡ seen_of E.order (tile_of E.order bytes.now) }
{
    rest_seen::<E>(&whole(bytes))
}
