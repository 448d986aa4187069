//! What is told of an extent: its word and its line.

ghost use Rattle.std.specs.Prelude.{◌≡◌, ◌≤◌, ℕ, IsTrue, Contains, true, false, None, length};
ghost use Rattle.std.specs.BTreeMap.{get};
ghost use Rattle.std.specs.Ordering.{nat_cmp};
ghost use Rattle.jnode.specs.declared.node.Seen.TheVariants as seen;
ghost use Rattle.jscan.specs.Image.{is_block_size, sightings};
ghost use Rattle.jscan.specs.Scans.{image_extents};
ghost use Rattle.jexpand.specs.Expanded.{compressed_node_at};
ghost use Rattle.jhistory.specs.HistoryText.{entry_fields, extent_told, inode_fields, is_of_all, is_selected, node_told, obsolete_told, selection};

use crate::fields::compr_of;
use crate::lines::{entry_line, inode_line, obsolete_line};
use crate::period::Period;
use crate::word::{NodeWord, Words};
use jline::LineBuffer;
use jnode::{CompressedNode, Dirent, Fill, InodeNode, Order, Seen, compressed_fields};
use jscan::{Extent, ExtentKind, Geometry, block_at};
use std::collections::BTreeSet;

/// The words of nodes, and which of them are told: the numbers of the objects whose nodes are, or
/// none for all, and the times.
#[derive(Clone, Copy)]
pub(crate) struct Told<'w> {
    pub words: &'w Words,
    pub subjects: Option<&'w BTreeSet<u32>>,
    pub period: Period,
}

/// Whether a node of an object and of a time is told.
fn is_selected(told: Told<'_>, ino: u32, time: u32) -> bool
    ensures { result ≡ is_selected (selection told.entry.subjects told.entry.period) ino time }
{
    if !told.period.has(time) {
        return false;
    }
    match told.subjects {
        Some(numbers) => numbers.contains(&ino),
        None => true,
    }
}

/// Whether all nodes are told.
fn is_of_all(told: Told<'_>) -> bool
    ensures { result ≡ is_of_all (selection told.entry.subjects told.entry.period) }
{
    told.period.is_always() && told.subjects.is_none()
}

/// The word of a node of an object and of a time, if it is told.
fn word_at(told: Told<'_>, addr: u32, ino: u32, time: u32) -> Option<NodeWord>
    ensures yes { is_selected (selection told.entry.subjects told.entry.period) ino time ≡ true
        → result ≡ get nat_cmp told.entry.words.now addr }
    ensures no { is_selected (selection told.entry.subjects told.entry.period) ino time ≡ false
        → result ≡ None }
{
    if !is_selected(told, ino, time) {
        return None;
    }
    told.words.get(&addr).copied()
}

fn entry_told(told: Told<'_>, addr: u32, entry: &Dirent<'_>) -> Option<(NodeWord, LineBuffer)>
    requires { length entry.now.name ≤ 254 }
    ensures { result ≡ node_told told.entry.words.now
        (selection told.entry.subjects told.entry.period) addr entry.now.ino entry.now.mctime
        (entry_fields entry.now) }
{
    match word_at(told, addr, entry.ino, entry.mctime) {
        Some(word) => Some((word, entry_line(addr, word, entry))),
        None => None,
    }
}

fn inode_told(
    told: Told<'_>,
    addr: u32,
    node: &InodeNode<'_>,
    compr: u8,
) -> Option<(NodeWord, LineBuffer)>
    ensures { result ≡ node_told told.entry.words.now
        (selection told.entry.subjects told.entry.period) addr node.now.ino node.now.mtime
        (inode_fields node.now compr) }
{
    match word_at(told, addr, node.ino, node.mtime) {
        Some(word) => Some((word, inode_line(addr, word, node, compr))),
        None => None,
    }
}

fn obsolete_told(told: Told<'_>, addr: u32, len: u32) -> Option<(NodeWord, LineBuffer)>
    ensures { result ≡ obsolete_told (selection told.entry.subjects told.entry.period) addr len }
{
    if is_of_all(told) {
        return Some((NodeWord::Obsolete, obsolete_line(addr, len)));
    }
    None
}

/// The node at an address where a compressed one is sighted.
fn compressed_node<'a, E: Order>(
    image: &'a [u8],
    geometry: Geometry,
    addr: u32,
) -> CompressedNode<'a>
    requires readable { IsTrue (is_block_size geometry.block) }
    requires sighted { (compr : ℕ)
        × Contains (sightings E.order geometry.block image.now) (addr, seen.Compressed compr) }
    ensures { result ≡ compressed_node_at E.order geometry.block image.now addr }
{
    let start = addr / geometry.block * geometry.block;
    let place = (addr % geometry.block) as usize;
    let block = block_at(image, start as usize, geometry.block as usize);
    compressed_fields::<E>(&block.slice(place, block.len() - place))
}

/// What is told of an extent of an image.
pub(crate) fn extent_told<E: Order>(
    image: &[u8],
    geometry: Geometry,
    told: Told<'_>,
    extent: &Extent<'_>,
) -> Option<(NodeWord, LineBuffer)>
    requires readable { IsTrue (is_block_size geometry.block) }
    requires extent { Contains (image_extents E.order geometry.block image.now) extent.now }
    ensures { result ≡ extent_told E.order geometry.block image.now told.entry.words.now
        (selection told.entry.subjects told.entry.period) extent.now }
{
    let ExtentKind::Tiled(what) = &extent.kind else {
        return None;
    };
    match what {
        Seen::Entry(entry) => entry_told(told, extent.addr, entry),
        Seen::Inode(node) => inode_told(told, extent.addr, node, compr_of(&node.fill)),
        Seen::Compressed { compr } => {
            let node = compressed_node::<E>(image, geometry, extent.addr).inode_with(Fill::Zero);
            inode_told(told, extent.addr, &node, *compr)
        }
        Seen::Obsolete => obsolete_told(told, extent.addr, extent.len),
        _ => None,
    }
}
