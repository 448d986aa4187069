//! What is known of nodes that were taken, from the highest version down.

ghost use Rattle.std.specs.Prelude.{◌≡◌, ◌<◌, ◌^◌, ◌&&◌, ◌||◌, not, min, length, IfOk, OnOk};
ghost use Rattle.std.specs.BTreeSet.{contains};
ghost use Rattle.std.specs.Cow.{cow_slice_items};
ghost use Rattle.std.specs.Ordering.{nat_cmp};
ghost use Rattle.jfrag.specs.Pieces.{end_of};
ghost use Rattle.jmount.specs.MountsNodes.{IsMountable};
ghost use Rattle.jmount.specs.StateOf.{piece_of};
ghost use Rattle.jmount.specs.Tree as tree;
ghost use Rattle.jcompact.specs.Taking.{AddsIf, TakesEntry, TakesInode, TakesNode, reached_by, size_there, stands};

use crate::covering::{cover, end_of, has_bare, spot};
use crate::ranks::Placed;
use crate::reaching::is_directory;
use flashbase::Part;
use jmount::Mounted;
use jnode::{Dirent, InodeNode, NodeRef};
use std::alloc::{AllocError, Global};
use std::borrow::CowSlice;
use std::collections::BTreeSet;

/// What is known of nodes that were taken.
#[derive(Drop)]
pub(crate) struct Taken<'n> {
    /// Of the places where a range begins or ends, those that none of them has.
    pub bare: BTreeSet<u64>,
    /// The objects of which one is a version.
    pub numbers: BTreeSet<u32>,
    /// The names, each with its directory, of which one is an entry.
    pub names: BTreeSet<(u32, CowSlice<'n, u8>)>,
    /// The addresses of those that matter.
    pub kept: BTreeSet<u32>,
}

/// The objects to which names lead.
#[derive(Clone, Copy)]
pub(crate) struct Reached<'m, 'a> {
    pub mounted: &'m Mounted<'a>,
    pub unreached: &'m BTreeSet<u32>,
}

/// Whether names lead to the object of a number.
fn is_reached(tree: Reached<'_, '_>, ino: u32) -> bool
    ensures { result ≡ reached_by tree.entry.mounted.now.state tree.entry.unreached.now ino }
{
    tree.mounted.object(ino).is_some() && !tree.unreached.contains(&ino)
}

/// The size of the object of a number.
fn size_in(mounted: &Mounted<'_>, ino: u32) -> u32
    ensures { result ≡ size_there mounted.now.state ino }
{
    match mounted.object(ino) {
        Some(object) => object.size,
        None => 0,
    }
}

/// Whether an entry stands for an object, in a directory that is reached.
fn stands(tree: Reached<'_, '_>, entry: &Dirent<'_>) -> bool
    ensures { result ≡ stands tree.entry.mounted.now.state
        (reached_by tree.entry.mounted.now.state tree.entry.unreached.now) entry.now }
{
    entry.ino != 0
        && is_reached(tree, entry.pino)
        && is_directory(tree.mounted, entry.pino)
        && tree.mounted.object(entry.ino).is_some()
}

/// The bytes of a name: borrowed, or where an image lacks some of them, a copy.
fn name_of<'a>(alloc: Global, name: &Part<'a>) -> Result<CowSlice<'a, u8>, AllocError>
    ensures { IfOk result (λ bytes. cow_slice_items bytes ≡ name.now) }
{
    let present = name.present();
    if present.len() == name.len() {
        return Ok(CowSlice::Borrowed(present));
    }
    let mut copy = Vec::with_capacity(alloc, name.len())?;
    name.put_onto(&mut copy);
    Ok(CowSlice::Owned(copy))
}

/// Keeps an address, if it is said so.
fn keep_if(kept: &mut BTreeSet<u32>, addr: u32, also: bool) -> Result<(), AllocError>
    ensures { OnOk result (AddsIf kept.old kept.new addr also) }
{
    if also {
        kept.insert(addr)?;
    }
    Ok(())
}

/// Whether a version counts that is the newest of its object or shows a byte.
fn counts(tree: Reached<'_, '_>, ino: u32, newest: bool, shows: bool) -> bool
    ensures { result ≡ (reached_by tree.entry.mounted.now.state tree.entry.unreached.now ino
        && (newest || shows)) }
{
    is_reached(tree, ino) && (newest || shows)
}

/// Whether an entry counts that is the newest of its name.
fn counts_entry(tree: Reached<'_, '_>, entry: &Dirent<'_>, newest: bool) -> bool
    ensures { result ≡ (newest && stands tree.entry.mounted.now.state
        (reached_by tree.entry.mounted.now.state tree.entry.unreached.now) entry.now) }
{
    newest && stands(tree, entry)
}

/// Takes a version of an object.
fn take_inode(
    tree: Reached<'_, '_>,
    addr: u32,
    node: &InodeNode<'_>,
    taken: &mut Taken<'_>,
) -> Result<(), AllocError>
    requires { end_of (piece_of node.now) < 2 ^ 32 }
    ensures { OnOk result (TakesInode tree.entry.mounted.now.state
        (reached_by tree.entry.mounted.now.state tree.entry.unreached.now) addr node.now
        taken.old taken.new) }
{
    let from = spot(node.ino, node.offset);
    let end = end_of(node);
    let shown = end.min(size_in(tree.mounted, node.ino));
    let shows = has_bare(&taken.bare, from, spot(node.ino, shown));
    cover(&mut taken.bare, from, spot(node.ino, end));
    let newest = taken.numbers.insert(node.ino)?;
    let also = counts(tree, node.ino, newest, shows);
    keep_if(&mut taken.kept, addr, also)?;
    Ok(())
}

/// Takes an entry.
fn take_entry<'n>(
    alloc: Global,
    tree: Reached<'_, '_>,
    addr: u32,
    entry: &Dirent<'n>,
    taken: &mut Taken<'n>,
) -> Result<(), AllocError>
    ensures { OnOk result (TakesEntry tree.entry.mounted.now.state
        (reached_by tree.entry.mounted.now.state tree.entry.unreached.now) addr entry.now
        taken.old taken.new) }
{
    let name = name_of(alloc, &entry.name)?;
    let newest = taken.names.insert((entry.pino, name))?;
    let also = counts_entry(tree, entry, newest);
    keep_if(&mut taken.kept, addr, also)?;
    Ok(())
}

/// Takes a node.
pub(crate) fn take<'n>(
    alloc: Global,
    tree: Reached<'_, '_>,
    node: &Placed<'n>,
    taken: &mut Taken<'n>,
) -> Result<(), AllocError>
    requires { IsMountable node.now.1 }
    ensures { OnOk result (TakesNode tree.entry.mounted.now.state
        (reached_by tree.entry.mounted.now.state tree.entry.unreached.now) node.now
        taken.old taken.new) }
{
    match &node.1 {
        NodeRef::Entry(entry) => take_entry(alloc, tree, node.0, entry, taken),
        NodeRef::Inode(inode) => take_inode(tree, node.0, inode, taken),
    }
}
