//! The newest entry of each name.

ghost use Rattle.std.specs.Prelude.{◌≡◌, ◌++◌, [], ◌∷◌, List, IfOk, OnOk, Contains};
ghost use Rattle.std.specs.BTreeMap.{get};
ghost use Rattle.std.specs.Cow.{cow_slice_items};
ghost use Rattle.jnode.specs.declared.node.NodeRef.TheVariants.{Entry};
ghost use Rattle.jcompact.specs.Matters.{Placed, is_newest};
ghost use Rattle.jcompact.specs.Taking.{name_key_cmp, node_rank};
ghost use Rattle.jhistory.specs.NewestEntries.{HasNewest, IsNewestIf, is_newer_than};

use flashbase::Part;
use jnode::{Dirent, NodeRef};
use std::alloc::{AllocError, Global};
use std::borrow::CowSlice;
use std::collections::BTreeMap;

/// A node with its address.
pub(crate) type Placed<'a> = (u32, NodeRef<'a>);

/// By a directory and a name: the version and address of the newest entry as one number, and what
/// it stands for.
pub(crate) type Newest<'a> = BTreeMap<(u32, CowSlice<'a, u8>), (u64, u32)>;

/// The version and the address of an entry as one number.
pub(crate) fn rank(addr: u32, entry: &Dirent<'_>) -> u64
    ensures { result ≡ node_rank (addr, Entry entry.now) }
{
    u64::from(entry.version) * (1 << 32) + u64::from(addr)
}

/// The bytes of a name: borrowed, or where an image lacks some of them, a copy.
fn name_of<'a>(alloc: Global, name: &Part<'a>) -> Result<CowSlice<'a, u8>, AllocError>
    ensures { IfOk result (λ bytes. cow_slice_items bytes ≡ name.now) }
{
    let present = name.present();
    if present.len() == name.len() {
        return Ok(CowSlice::Borrowed(present));
    }
    let mut copy = Vec::with_capacity(alloc, name.len())?;
    name.put_onto(&mut copy);
    Ok(CowSlice::Owned(copy))
}

/// What is known of a name.
fn known<'a>(newest: &Newest<'a>, key: &(u32, CowSlice<'a, u8>)) -> Option<(u64, u32)>
    ensures { result ≡ get name_key_cmp newest.now key.now }
{
    newest.get(key).copied()
}

/// Whether none is known of a name, or an older one.
fn is_newer(known: Option<(u64, u32)>, rank: u64) -> bool
    ensures { result ≡ is_newer_than known rank }
{
    match known {
        Some(top) => top.0 < rank,
        None => true,
    }
}

/// Notes an entry, if none that is newer is known of its name.
fn note_entry<'a>(
    alloc: Global,
    addr: u32,
    entry: &Dirent<'a>,
    newest: &mut Newest<'a>,
) -> Result<(), AllocError>
    ensures { OnOk result ((ns : List Placed) → HasNewest ns newest.old
        → HasNewest (ns ++ (addr, Entry entry.now) ∷ []) newest.new) }
{
    let key = (entry.pino, name_of(alloc, &entry.name)?);
    let rank = rank(addr, entry);
    if !is_newer(known(newest, &key), rank) {
        return Ok(());
    }
    newest.insert(key, (rank, entry.ino))?;
    Ok(())
}

/// Notes a node.
fn note<'a>(
    alloc: Global,
    addr: u32,
    node: &NodeRef<'a>,
    newest: &mut Newest<'a>,
) -> Result<(), AllocError>
    ensures { OnOk result ((ns : List Placed) → HasNewest ns newest.old
        → HasNewest (ns ++ (addr, node.now) ∷ []) newest.new) }
{
    match node {
        NodeRef::Entry(entry) => note_entry(alloc, addr, entry, newest),
        NodeRef::Inode(_) => Ok(()),
    }
}

/// The newest entries of all names.
pub(crate) fn newest_of<'a>(alloc: Global, nodes: &[Placed<'a>]) -> Result<Newest<'a>, AllocError>
    ensures { IfOk result (HasNewest nodes.now) }
{
    let mut newest = BTreeMap::new(alloc);
    for node in nodes {
        note(alloc, node.0, &node.1, &mut newest)?;
    }
    Ok(newest)
}

/// The newest entry of the name of an entry.
pub(crate) fn newest_for<'a>(
    alloc: Global,
    newest: &Newest<'a>,
    entry: &Dirent<'a>,
) -> Result<Option<(u64, u32)>, AllocError>
    ensures { IfOk result (λ top. (ns : List Placed) → HasNewest ns newest.now
        → IsNewestIf ns entry.now top) }
{
    let key = (entry.pino, name_of(alloc, &entry.name)?);
    Ok(known(newest, &key))
}

/// Whether an entry is the newest of its name.
pub(crate) fn is_newest<'a>(
    alloc: Global,
    newest: &Newest<'a>,
    addr: u32,
    entry: &Dirent<'a>,
) -> Result<bool, AllocError>
    ensures { IfOk result (λ is. (ns : List Placed) → HasNewest ns newest.now
        → Contains ns (addr, Entry entry.now) → is ≡ is_newest ns (addr, Entry entry.now)) }
{
    match newest_for(alloc, newest, entry)? {
        Some(top) => Ok(top.0 == rank(addr, entry)),
        None => Ok(false),
    }
}
