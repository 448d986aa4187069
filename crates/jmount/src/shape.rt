//! The shape of the tree: no directory has two names, and none lies below itself.
//!
//! Directories are taken out one after the other: those that have no name in a directory, and what
//! lies below them. What is left holds each other in loops.

ghost use Rattle.std.specs.Prelude.{◌≡◌, ℕ, not, List, [], Decides, IfOk, OnOk, Bool};
ghost use Rattle.std.specs.Ordering.{nat_cmp};
ghost use Rattle.std.specs.BTreeSet.{contains};
ghost use Rattle.jmount.specs.Shape.{IsSingle, HasShape};
ghost use Rattle.jmount.specs.Kept.{HasSeveral};
ghost use Rattle.jmount.specs.Shaping.{IsHeld, IsPeeledUpTo, is_root_held, others};

use crate::mounted::ROOT;
use crate::stored_tree::StoredTree;
use std::alloc::{AllocError, Global};
use std::collections::BTreeSet;

/// Whether a tree has it, of which it is known which objects have several names.
pub fn has_shape(
    alloc: Global,
    tree: &StoredTree<'_, '_>,
    several: &BTreeSet<u32>,
) -> Result<bool, AllocError>
    requires { HasSeveral tree.now several.now }
    ensures { IfOk result (λ shape. Decides shape (HasShape tree.now)) }
{
    if has_second_name(tree, several) {
        return Ok(false);
    }
    let mut left = held(alloc, tree)?;
    remove_below(tree, others(alloc, tree, &left)?, &mut left)?;
    if is_root_held(tree, &left) {
        return Ok(false);
    }
    let mut root = Vec::new(alloc);
    root.push(ROOT)?;
    remove_below(tree, root, &mut left)?;
    Ok(left.is_empty())
}

/// Whether a directory other than the root has a second name, in whatever it is looked up.
fn has_second_name(tree: &StoredTree<'_, '_>, several: &BTreeSet<u32>) -> bool
    requires { HasSeveral tree.now several.now }
    ensures { Decides (not result) (IsSingle tree.now) }
{
    several
        .iter()
        .any(|ino| *ino != ROOT && tree.is_directory(*ino))
}

/// The directories other than the root that have a name in a directory.
fn held(alloc: Global, tree: &StoredTree<'_, '_>) -> Result<BTreeSet<u32>, AllocError>
    ensures { IfOk result
        (λ held. (i : ℕ) → Decides (contains nat_cmp held i) (IsHeld tree.now i)) }
{
    let mut held = BTreeSet::new(alloc);
    for (dir, _, ino) in tree.names() {
        if ino != ROOT && tree.is_directory(ino) && tree.is_directory(dir) {
            held.insert(ino)?;
        }
    }
    Ok(held)
}

/// The directories other than the root that are not among these.
fn others(
    alloc: Global,
    tree: &StoredTree<'_, '_>,
    held: &BTreeSet<u32>,
) -> Result<Vec<u32>, AllocError>
    ensures { IfOk result (λ dirs. dirs.items ≡ others tree.now held.now) }
{
    tree.objects()
        .map(|(ino, _)| ino)
        .filter(|ino| *ino != ROOT && tree.is_directory(*ino) && !held.contains(ino))
        .collect(alloc)
}

/// Takes out what lies below some directories.
fn remove_below(
    tree: &StoredTree<'_, '_>,
    mut above: Vec<u32>,
    left: &mut BTreeSet<u32>,
) -> Result<(), AllocError>
    ensures { OnOk result ((apart : ℕ → Bool) → IsPeeledUpTo tree.now apart above.items
        left.old → IsPeeledUpTo tree.now apart [] left.new) }
{
    while let Some(dir) = above.pop() {
        for (_, ino) in tree.entries(dir) {
            if left.remove(&ino) {
                above.push(ino)?;
            }
        }
    }
    Ok(())
}

/// Whether the root has a name in itself, or in one of these directories.
fn is_root_held(tree: &StoredTree<'_, '_>, left: &BTreeSet<u32>) -> bool
    ensures { result ≡ is_root_held tree.now left.now }
{
    tree.names().any(|(dir, _, ino)| {
        ino == ROOT && tree.is_directory(dir) && (dir == ROOT || left.contains(&dir))
    })
}
