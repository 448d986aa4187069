//! The line forms of `check --scan`, written into a line buffer. Each takes the place of what the
//! buffer had.

ghost use Rattle.std.specs.Prelude.{◌≡◌, ◌≤◌, length};
ghost use Rattle.jreport.specs.Forms.{block_line, line_start, plain_line, typed_line, entry_line, fill_name, inode_line, compressed_line, damaged_line, total_line, seen_line, kind_line, extent_line, shown_name};

use jline::{LineBuffer, damage_name};
use jnode::{Damage, Dirent, Fill, InodeNode, Seen};
use jscan::{Extent, ExtentKind};

/// The line before those of block `k`.
#[tactic(auto, unfolding(crate::specs::Forms::block_line))]
pub(crate) fn write_block(line: &mut LineBuffer, k: u64)
    ensures { line.new ≡ block_line k }
{
    line.clear();
    line.push_text(b"block ");
    line.push_decimal(k);
    line.push_text(b"\n");
}

/// The address, what is there, and how many bytes it has.
fn write_start(line: &mut LineBuffer, addr: u32, what: &[u8], len: u32)
    requires { length what.now ≤ 12 }
    ensures text { line.new ≡ line_start addr what.now len }
    ensures short { length line.new ≤ 42 }
{
    line.clear();
    line.push_hex(8, u64::from(addr));
    line.push_text(b" ");
    line.push_text(what);
    line.push_text(b" ");
    line.push_decimal(u64::from(len));
}

/// The line of what has no fields.
fn write_plain(line: &mut LineBuffer, addr: u32, what: &[u8], len: u32)
    requires { length what.now ≤ 12 }
    ensures { line.new ≡ plain_line addr what.now len }
{
    write_start(line, addr, what, len);
    line.push_text(b"\n");
}

/// The line of a node whose type no reader knows.
fn write_typed(line: &mut LineBuffer, addr: u32, what: &[u8], len: u32, nodetype: u16)
    requires { length what.now ≤ 12 }
    ensures { line.new ≡ typed_line addr what.now len nodetype }
{
    write_start(line, addr, what, len);
    line.push_text(b" type ");
    line.push_hex(4, u64::from(nodetype));
    line.push_text(b"\n");
}

/// The line of an entry.
fn write_entry(line: &mut LineBuffer, addr: u32, len: u32, entry: &Dirent<'_>)
    requires { length entry.now.name ≤ 255 }
    ensures { line.new ≡ entry_line addr len entry.now }
{
    write_start(line, addr, b"entry", len);
    line.push_text(b" pino ");
    line.push_decimal(u64::from(entry.pino));
    line.push_text(b" version ");
    line.push_decimal(u64::from(entry.version));
    line.push_text(b" ino ");
    line.push_decimal(u64::from(entry.ino));
    line.push_text(b" type ");
    line.push_decimal(u64::from(entry.kind));
    line.push_text(b" name ");
    line.push_escaped(&entry.name);
    line.push_text(b"\n");
}

/// How an inode node's data are stored.
fn fill_name(fill: &Fill<'_>) -> &'static [u8]
    ensures name { result.now ≡ fill_name fill.now }
    ensures short { length result.now ≤ 8 }
{
    match fill {
        Fill::Zero => b"zero",
        Fill::Data(_) => b"none",
    }
}

/// The line of an inode node: its whole mode in octal, and how many bytes its data stand for.
fn write_inode(line: &mut LineBuffer, addr: u32, len: u32, node: &InodeNode<'_>)
    ensures { line.new ≡ inode_line addr len node.now }
{
    write_start(line, addr, b"inode", len);
    line.push_text(b" ino ");
    line.push_decimal(u64::from(node.ino));
    line.push_text(b" version ");
    line.push_decimal(u64::from(node.version));
    line.push_text(b" mode ");
    line.push_octal(node.mode);
    line.push_text(b" size ");
    line.push_decimal(u64::from(node.isize));
    line.push_text(b" offset ");
    line.push_decimal(u64::from(node.offset));
    line.push_text(b" data ");
    line.push_decimal(u64::from(node.dsize));
    line.push_text(b" ");
    line.push_text(fill_name(&node.fill));
    line.push_text(b"\n");
}

/// The line of a node whose data are compressed.
fn write_compressed(line: &mut LineBuffer, addr: u32, len: u32, compr: u8)
    ensures { line.new ≡ compressed_line addr len compr }
{
    write_start(line, addr, b"compressed", len);
    line.push_text(b" compr ");
    line.push_decimal(u64::from(compr));
    line.push_text(b"\n");
}

/// The line of a node that fails one of its checks.
fn write_damaged(line: &mut LineBuffer, addr: u32, len: u32, which: Damage)
    ensures { line.new ≡ damaged_line addr len which }
{
    write_start(line, addr, b"damaged", len);
    line.push_text(b" ");
    line.push_text(damage_name(which));
    line.push_text(b"\n");
}

/// The line of a node's tile.
fn write_seen(line: &mut LineBuffer, addr: u32, len: u32, seen: &Seen<'_>)
    requires { length (shown_name (ExtentKind.Tiled seen.now)) ≤ 255 }
    ensures { line.new ≡ seen_line addr len seen.now }
{
    match seen {
        Seen::Entry(entry) => write_entry(line, addr, len, entry),
        Seen::Inode(node) => write_inode(line, addr, len, node),
        Seen::Marker => write_plain(line, addr, b"marker", len),
        Seen::Padding => write_plain(line, addr, b"padding", len),
        Seen::Obsolete => write_plain(line, addr, b"obsolete", len),
        Seen::Attribute => write_plain(line, addr, b"attribute", len),
        Seen::Skippable { nodetype } => write_typed(line, addr, b"skipped", len, *nodetype),
        Seen::ReadOnly { nodetype } => write_typed(line, addr, b"read-only", len, *nodetype),
        Seen::Incompatible { nodetype } => write_typed(line, addr, b"incompatible", len, *nodetype),
        Seen::Compressed { compr } => write_compressed(line, addr, len, *compr),
        Seen::Damaged { which } => write_damaged(line, addr, len, *which),
    }
}

/// The line of an extent.
#[tactic(auto, unfolding(crate::specs::Forms::extent_line))]
pub(crate) fn write_extent(line: &mut LineBuffer, extent: &Extent<'_>)
    requires { length (shown_name extent.now.kind) ≤ 255 }
    ensures { line.new ≡ extent_line extent.now }
{
    let (addr, len) = (extent.addr, extent.len);
    match &extent.kind {
        ExtentKind::Tiled(seen) => write_seen(line, addr, len, seen),
        ExtentKind::Erased => write_plain(line, addr, b"erased", len),
        ExtentKind::OtherOrder => write_plain(line, addr, b"other-order", len),
        ExtentKind::Dirt => write_plain(line, addr, b"dirt", len),
    }
}

/// The last line.
pub(crate) fn write_total(
    line: &mut LineBuffer,
    blocks: u64,
    entries: u64,
    inodes: u64,
    findings: u64,
)
    ensures { line.new ≡ total_line blocks entries inodes findings }
{
    line.clear();
    line.push_text(b"total blocks ");
    line.push_decimal(blocks);
    line.push_text(b" entries ");
    line.push_decimal(entries);
    line.push_text(b" inodes ");
    line.push_decimal(inodes);
    line.push_text(b" findings ");
    line.push_decimal(findings);
    line.push_text(b"\n");
}
