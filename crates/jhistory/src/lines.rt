//! The lines of a history, written into a line buffer.

ghost use Rattle.std.specs.Prelude.{◌≡◌, ◌≤◌, ◌++◌, codes, length};
ghost use Rattle.jhistory.specs.HistoryText.{entry_fields, history_line, inode_fields, obsolete_fields, word_text, word_totals_line};
ghost use Rattle.jline.specs.Words.{hex};

use crate::fields::{push_entry, push_field, push_inode};
use crate::totals::Totals;
use crate::word::NodeWord;
use jline::LineBuffer;
use jnode::{Dirent, InodeNode};

/// What a line begins with: an address and a word.
fn begun(addr: u32, word: NodeWord) -> LineBuffer
    ensures text { result ≡ hex 8 addr ++ codes " " ++ word_text word }
    ensures short { length result ≤ 20 }
{
    let mut line = LineBuffer::new();
    line.push_hex(8, u64::from(addr));
    line.push_text(b" ");
    line.push_text(word.text());
    line
}

/// The line of an entry.
#[tactic(auto, unfolding(crate::specs::HistoryText::history_line))]
pub(crate) fn entry_line(addr: u32, word: NodeWord, entry: &Dirent<'_>) -> LineBuffer
    requires { length entry.now.name ≤ 254 }
    ensures { result ≡ history_line addr word (entry_fields entry.now) }
{
    let mut line = begun(addr, word);
    push_entry(&mut line, entry);
    line.push_text(b"\n");
    line
}

/// The line of an inode node, whose data are compressed by the method of this number.
#[tactic(auto, unfolding(crate::specs::HistoryText::history_line))]
pub(crate) fn inode_line(addr: u32, word: NodeWord, node: &InodeNode<'_>, compr: u8) -> LineBuffer
    ensures { result ≡ history_line addr word (inode_fields node.now compr) }
{
    let mut line = begun(addr, word);
    push_inode(&mut line, node, compr);
    line.push_text(b"\n");
    line
}

/// The line of a node that is marked obsolete.
#[tactic(auto, unfolding(crate::specs::HistoryText::history_line))]
pub(crate) fn obsolete_line(addr: u32, len: u32) -> LineBuffer
    ensures { result ≡ history_line addr NodeWord.Obsolete (obsolete_fields len) }
{
    let mut line = begun(addr, NodeWord::Obsolete);
    push_field(&mut line, b" length ", u64::from(len));
    line.push_text(b"\n");
    line
}

/// The last line.
#[tactic(auto, unfolding(crate::specs::HistoryText::word_totals_line))]
pub(crate) fn totals_line(totals: &Totals) -> LineBuffer
    ensures { result ≡ word_totals_line totals.now }
{
    let mut line = LineBuffer::new();
    line.push_text(b"total");
    push_field(&mut line, b" live ", totals.live);
    push_field(&mut line, b" superseded ", totals.superseded);
    push_field(&mut line, b" deleted ", totals.deleted);
    push_field(&mut line, b" deletion ", totals.deletion);
    push_field(&mut line, b" unreached ", totals.unreached);
    push_field(&mut line, b" obsolete ", totals.obsolete);
    line.push_text(b"\n");
    line
}
