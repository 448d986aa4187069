//! The entries of an image, added in order of directory and name.

ghost use Rattle.std.specs.Prelude.{◌≡◌, IfOk, IsPermutation, map};
ghost use Rattle.jnode.specs.declared.node.Dirent.{Dirent};
ghost use Rattle.jmount.specs.StateOf.{entries};
ghost use Rattle.jmount.specs.Collected.{without_addresses};
ghost use Rattle.jmount.specs.CollectedEntries.{CollectedEntries, pending_entries};

use jname::{NameFault, Names};
use jnode::{Dirent, NodeRef};
use std::alloc::{AllocError, Global};

/// What entries are sorted by: a directory, and the first bytes of a name, whose rest lies in the
/// image, where each look waits for memory.
type Key = (u32, u64);

/// An entry that is to be added.
#[derive(Drop)]
pub struct Pending<'n, 'a> {
    key: Key,
    pub entry: &'n Dirent<'a>,
}

/// Whether the entries come in order of directory and name, as far as their keys tell.
pub(crate) fn are_in_order(nodes: &[(u32, NodeRef<'_>)]) -> bool {
    let mut last = (0, 0);
    for (_, node) in nodes {
        if let NodeRef::Entry(entry) = node {
            let key = key_of(entry);
            if key < last {
                return false;
            }
            last = key;
        }
    }
    true
}

/// The entries of nodes, of which no two clash. They are added in order of directory and name, so
/// that one finds in the caches what the one before it looked at: in no order, each looks far and
/// wide.
///
/// # Errors
/// `Clash`: it is not told where.
pub fn collect_names<'a>(
    alloc: Global,
    nodes: &[(u32, NodeRef<'a>)],
) -> Result<Names<'a>, NameFault>
    ensures { IfOk result
        (λ names. CollectedEntries names (entries (without_addresses nodes.now))) }
{
    let mut pending = entries_in(alloc, nodes)?;
    pending.sort_unstable_by_key(|pending| pending.key);
    names_of(alloc, &pending)
}

/// The entries of nodes, as they come.
fn entries_in<'n, 'a>(
    alloc: Global,
    nodes: &'n [(u32, NodeRef<'a>)],
) -> Result<Vec<Pending<'n, 'a>>, AllocError>
    ensures { IfOk result
        (λ pending. pending_entries pending.items ≡ entries (without_addresses nodes.now)) }
{
    let mut pending = Vec::with_capacity(alloc, count_entries(nodes))?;
    for (_, node) in nodes {
        if let NodeRef::Entry(entry) = node {
            let key = key_of(entry);
            pending.push(Pending { key, entry })?;
        }
    }
    Ok(pending)
}

fn count_entries(nodes: &[(u32, NodeRef<'_>)]) -> usize {
    nodes
        .iter()
        .filter(|(_, node)| matches!(node, NodeRef::Entry(_)))
        .count()
}

fn key_of(entry: &Dirent<'_>) -> Key {
    let name = entry.name.present();
    let len = name.len().min(8);
    let mut first = [0; 8];
    first[..len].copy_from_slice(&name[..len]);
    (entry.pino, u64::from_be_bytes(first))
}

/// The names of these entries.
fn names_of<'a>(alloc: Global, pending: &[Pending<'_, 'a>]) -> Result<Names<'a>, NameFault>
    ensures { IfOk result (λ names. CollectedEntries names (pending_entries pending.now)) }
{
    let mut names = Names::new(alloc);
    for Pending { entry, .. } in pending {
        names.add(entry)?;
    }
    Ok(names)
}
