//! The places that ranges of higher versions leave bare.
//!
//! Of the places where a range begins or ends those are bare that no version has that was taken. A
//! range shows a byte where one is left in it.

ghost use Rattle.std.specs.Prelude.{◌≡◌, ◌+◌, ◌*◌, ◌<◌, ◌≤◌, ◌^◌, ◌&&◌, ℕ, IfNone, IfSome, IfOk, OnOk, true, false, not, nat_lt, nat_le, All};
ghost use Rattle.std.specs.BTreeSet.{contains};
ghost use Rattle.std.specs.Ordering.{nat_cmp};
ghost use Rattle.jfrag.specs.Pieces.{end_of};
ghost use Rattle.jmount.specs.MountsNodes.{IsMountable, AreMountable};
ghost use Rattle.jmount.specs.StateOf.{piece_of};
ghost use Rattle.jcompact.specs.Taking.{HasEnds, spot_of};

use jnode::{Fill, InodeNode, NodeRef};
use std::alloc::{AllocError, Global};
use std::collections::BTreeSet;

/// One number for a place of an object.
pub(crate) fn spot(ino: u32, place: u32) -> u64
    ensures { result ≡ spot_of ino place }
{
    u64::from(ino) * (1 << 32) + u64::from(place)
}

/// The first place behind the range of a version.
pub(crate) fn end_of(node: &InodeNode<'_>) -> u32
    requires { end_of (piece_of node.now) < 2 ^ 32 }
    ensures { result ≡ end_of (piece_of node.now) }
{
    match &node.fill {
        Fill::Zero => node.offset + node.dsize,
        Fill::Data(bytes) => node.offset + bytes.len() as u32,
    }
}

/// The first spot that is bare, from one on and before another.
fn first_bare(bare: &BTreeSet<u64>, from: u64, to: u64) -> Option<u64>
    ensures there { IfSome result (λ c. contains nat_cmp bare.now c ≡ true) }
    ensures from { IfSome result (λ c. from ≤ c) }
    ensures to { IfSome result (λ c. c < to) }
    ensures none { IfNone result ((c : ℕ) → from ≤ c → c < to
        → contains nat_cmp bare.now c ≡ false) }
{
    match bare.range(from..).next() {
        Some(c) if *c < to => Some(*c),
        _ => None,
    }
}

/// Whether a spot is bare from one on and before another.
pub(crate) fn has_bare(bare: &BTreeSet<u64>, from: u64, to: u64) -> bool
    ensures yes { result ≡ true → (c : ℕ) × (from ≤ c) × (c < to)
        × (contains nat_cmp bare.now c ≡ true) }
    ensures no { result ≡ false → (c : ℕ) → from ≤ c → c < to
        → contains nat_cmp bare.now c ≡ false }
{
    first_bare(bare, from, to).is_some()
}

/// Spots from one on and before another are bare no more.
pub(crate) fn cover(bare: &mut BTreeSet<u64>, from: u64, to: u64)
    ensures { (c : ℕ) → contains nat_cmp bare.new c
        ≡ (contains nat_cmp bare.old c && not (nat_le from c && nat_lt c to)) }
{
    while let Some(c) = first_bare(bare, from, to) {
        bare.remove(&c);
    }
}

/// Adds where the range of a node begins and ends.
fn add_ends(spots: &mut BTreeSet<u64>, node: &NodeRef<'_>) -> Result<(), AllocError>
    requires { IsMountable node.now }
    ensures keeps { OnOk result ((c : ℕ) → contains nat_cmp spots.old c ≡ true
        → contains nat_cmp spots.new c ≡ true) }
    ensures ends { OnOk result (HasEnds spots.new node.now) }
{
    match node {
        NodeRef::Entry(_) => Ok(()),
        NodeRef::Inode(node) => {
            spots.insert(spot(node.ino, node.offset))?;
            spots.insert(spot(node.ino, end_of(node)))?;
            Ok(())
        }
    }
}

/// Where the ranges of nodes begin and end.
pub(crate) fn spots_of(
    alloc: Global,
    nodes: &[(u32, NodeRef<'_>)],
) -> Result<BTreeSet<u64>, AllocError>
    requires { AreMountable nodes.now }
    ensures { IfOk result (λ spots. All (λ n. HasEnds spots n.1) nodes.now) }
{
    let mut spots = BTreeSet::new(alloc);
    for (_, node) in nodes {
        add_ends(&mut spots, node)?;
    }
    Ok(spots)
}
