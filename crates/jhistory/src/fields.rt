//! The fields of nodes, written into a line buffer.

ghost use Rattle.std.specs.Prelude.{◌≡◌, ◌+◌, ◌*◌, ◌<◌, ◌≤◌, ◌++◌, length};
ghost use Rattle.jhistory.specs.HistoryText.{compr_of_fill, entry_fields, entry_owner, entry_rest, field_text, inode_fields, inode_owner, inode_range, inode_times, inode_version};

use jline::LineBuffer;
use jnode::{Dirent, Fill, InodeNode};

/// The word for a field, and its number.
pub(crate) fn push_field(line: &mut LineBuffer, name: &[u8], n: u64)
    requires { length line.old + length name.now + 20 ≤ 1200 }
    ensures text { line.new ≡ line.old ++ field_text name.now n }
    ensures grows { length line.new ≤ length line.old + length name.now + 20 }
{
    line.push_text(name);
    line.push_decimal(n);
}

#[tactic(auto, unfolding(crate::specs::HistoryText::entry_owner))]
fn push_entry_owner(line: &mut LineBuffer, entry: &Dirent<'_>)
    requires room { length line.old ≤ 20 }
    ensures text { line.new ≡ line.old ++ entry_owner entry.now }
    ensures grows { length line.new ≤ 110 }
{
    push_field(line, b" entry pino ", u64::from(entry.pino));
    push_field(line, b" version ", u64::from(entry.version));
    push_field(line, b" ino ", u64::from(entry.ino));
}

#[tactic(auto, unfolding(crate::specs::HistoryText::entry_rest))]
fn push_entry_rest(line: &mut LineBuffer, entry: &Dirent<'_>)
    requires room { length line.old ≤ 110 }
    requires name { length entry.now.name ≤ 254 }
    ensures text { line.new ≡ line.old ++ entry_rest entry.now }
    ensures grows { length line.new ≤ 1190 }
{
    push_field(line, b" mctime ", u64::from(entry.mctime));
    push_field(line, b" type ", u64::from(entry.kind));
    line.push_text(b" name ");
    line.push_escaped(&entry.name);
}

/// The fields of an entry.
pub(crate) fn push_entry(line: &mut LineBuffer, entry: &Dirent<'_>)
    requires room { length line.old ≤ 20 }
    requires name { length entry.now.name ≤ 254 }
    ensures text { line.new ≡ line.old ++ entry_fields entry.now }
    ensures grows { length line.new ≤ 1190 }
{
    push_entry_owner(line, entry);
    push_entry_rest(line, entry);
}

#[tactic(auto, unfolding(crate::specs::HistoryText::inode_version))]
fn push_version(line: &mut LineBuffer, node: &InodeNode<'_>)
    requires room { length line.old ≤ 20 }
    ensures text { line.new ≡ line.old ++ inode_version node.now }
    ensures grows { length line.new ≤ 100 }
{
    push_field(line, b" inode ino ", u64::from(node.ino));
    push_field(line, b" version ", u64::from(node.version));
}

#[tactic(auto, unfolding(crate::specs::HistoryText::inode_owner))]
fn push_owner(line: &mut LineBuffer, node: &InodeNode<'_>)
    requires room { length line.old ≤ 100 }
    ensures text { line.new ≡ line.old ++ inode_owner node.now }
    ensures grows { length line.new ≤ 200 }
{
    line.push_text(b" mode ");
    line.push_octal(node.mode);
    push_field(line, b" uid ", u64::from(node.uid));
    push_field(line, b" gid ", u64::from(node.gid));
}

#[tactic(auto, unfolding(crate::specs::HistoryText::inode_times))]
fn push_times(line: &mut LineBuffer, node: &InodeNode<'_>)
    requires room { length line.old ≤ 200 }
    ensures text { line.new ≡ line.old ++ inode_times node.now }
    ensures grows { length line.new ≤ 400 }
{
    push_field(line, b" isize ", u64::from(node.isize));
    push_field(line, b" atime ", u64::from(node.atime));
    push_field(line, b" mtime ", u64::from(node.mtime));
    push_field(line, b" ctime ", u64::from(node.ctime));
}

#[tactic(auto, unfolding(crate::specs::HistoryText::inode_range))]
fn push_range(line: &mut LineBuffer, node: &InodeNode<'_>, compr: u8)
    requires room { length line.old ≤ 400 }
    ensures text { line.new ≡ line.old ++ inode_range node.now compr }
    ensures grows { length line.new ≤ 500 }
{
    push_field(line, b" offset ", u64::from(node.offset));
    push_field(line, b" dsize ", u64::from(node.dsize));
    push_field(line, b" compr ", u64::from(compr));
}

/// The fields of an inode node, whose data are compressed by the method of this number.
pub(crate) fn push_inode(line: &mut LineBuffer, node: &InodeNode<'_>, compr: u8)
    requires room { length line.old ≤ 20 }
    ensures text { line.new ≡ line.old ++ inode_fields node.now compr }
    ensures grows { length line.new ≤ 500 }
{
    push_version(line, node);
    push_owner(line, node);
    push_times(line, node);
    push_range(line, node, compr);
}

/// The number of the method of data that are read as they are.
pub(crate) fn compr_of(fill: &Fill<'_>) -> u8
    ensures { result ≡ compr_of_fill fill.now }
{
    match fill {
        Fill::Zero => 1,
        Fill::Data(_) => 0,
    }
}
