//! Which nodes are kept.

ghost use Rattle.std.specs.Prelude.{◌≡◌, ◌<◌, ◌==◌, ◌&&◌, ℕ, IfOk};
ghost use Rattle.std.specs.BTreeSet.{contains};
ghost use Rattle.std.specs.List.{AllPairs, filter, list_any};
ghost use Rattle.std.specs.Ordering.{nat_cmp};
ghost use Rattle.jmount.specs.Collected.{without_addresses};
ghost use Rattle.jmount.specs.MountsNodes.{AreMountable};
ghost use Rattle.jmount.specs.StateOf.{state_of};
ghost use Rattle.jcompact.specs.Matters.{AreWhatMatters, matters};
ghost use Rattle.jcompact.specs.Taking.{reached_by};

use crate::covering::spots_of;
use crate::ranks::{Placed, by_rank};
use crate::reaching::unreached;
use crate::taken::{Reached, Taken, take};
use jmount::Mounted;
use jnode::NodeRef;
use std::alloc::{AllocError, Global};
use std::collections::BTreeSet;

/// The addresses of the nodes that matter, where these are the objects that no names lead to.
fn addresses_kept(
    alloc: Global,
    tree: Reached<'_, '_>,
    nodes: &[Placed<'_>],
) -> Result<BTreeSet<u32>, AllocError>
    requires mountable { AreMountable nodes.now }
    requires by_address { AllPairs (λ m n. m.0 < n.0) nodes.now }
    requires made { tree.mounted.now.state ≡ state_of (without_addresses nodes.now) }
    ensures { IfOk result (λ kept. (a : ℕ) → contains nat_cmp kept a
        ≡ list_any (λ n. (n.0 == a) && matters nodes.now
        (reached_by tree.entry.mounted.now.state tree.entry.unreached.now) n) nodes.now) }
{
    let mut left = by_rank(alloc, nodes)?;
    let bare = spots_of(alloc, nodes)?;
    let numbers = BTreeSet::new(alloc);
    let names = BTreeSet::new(alloc);
    let kept = BTreeSet::new(alloc);
    let mut taken = Taken {
        bare,
        numbers,
        names,
        kept,
    };
    while let Some((_, node)) = left.pop_last() {
        take(alloc, tree, node, &mut taken)?;
    }
    Ok(taken.kept)
}

/// Those of some nodes that are at one of these addresses.
fn at<'a>(addresses: &BTreeSet<u32>, nodes: Vec<Placed<'a>>) -> Vec<Placed<'a>>
    ensures { result.items
        ≡ filter (λ n. contains nat_cmp addresses.now n.0) nodes.entry.items }
{
    let mut kept = nodes;
    kept.retain(|node| addresses.contains(&node.0));
    kept
}

/// Of the nodes of a mounted image, in order of their addresses, those that matter: live names of
/// directories that are reached, and of each object that is reached the newest node and each that
/// shows a byte; of equal ones the one of highest address. O(n log n) for n nodes. Takes memory for
/// what it knows of the nodes, and gives it back.
///
/// # Errors
/// Out of memory: no node is answered then.
pub fn kept<'a>(
    alloc: Global,
    mounted: &Mounted<'_>,
    nodes: Vec<(u32, NodeRef<'a>)>,
) -> Result<Vec<(u32, NodeRef<'a>)>, AllocError>
    requires mountable { AreMountable nodes.items }
    requires by_address { AllPairs (λ m n. m.0 < n.0) nodes.items }
    requires made { mounted.now.state ≡ state_of (without_addresses nodes.items) }
    ensures { IfOk result (λ kept. AreWhatMatters nodes.entry.items kept.items) }
{
    let unreached = unreached(alloc, mounted)?;
    let tree = Reached {
        mounted,
        unreached: &unreached,
    };
    let addresses = addresses_kept(alloc, tree, &nodes)?;
    Ok(at(&addresses, nodes))
}
