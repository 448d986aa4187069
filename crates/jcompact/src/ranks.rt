//! Nodes in the order in which they count.

ghost use Rattle.std.specs.Prelude.{◌≡◌, ◌<◌, ◌^◌, ℕ, IfOk, All};
ghost use Rattle.jmount.specs.StateOf.{version_of};
ghost use Rattle.jcompact.specs.Taking.{AreUntaken, node_rank};

use jnode::NodeRef;
use std::alloc::{AllocError, Global};
use std::collections::BTreeMap;

/// A node with its address.
pub(crate) type Placed<'a> = (u32, NodeRef<'a>);

/// Nodes by version, and of one version by address.
pub(crate) type ByRank<'n, 'a> = BTreeMap<u64, &'n Placed<'a>>;

fn version_of(node: &NodeRef<'_>) -> u32
    ensures { result ≡ version_of node.now }
{
    match node {
        NodeRef::Entry(entry) => entry.version,
        NodeRef::Inode(inode) => inode.version,
    }
}

/// The version and the address of a node as one number.
fn rank(addr: u32, node: &NodeRef<'_>) -> u64
    ensures rank { result ≡ node_rank (addr, node.now) }
    ensures within { node_rank (addr, node.now) < 2 ^ 64 }
    ensures address { addr < 2 ^ 32 }
{
    u64::from(version_of(node)) * (1 << 32) + u64::from(addr)
}

/// All nodes by their ranks.
pub(crate) fn by_rank<'n, 'a>(
    alloc: Global,
    nodes: &'n [Placed<'a>],
) -> Result<ByRank<'n, 'a>, AllocError>
    ensures left { IfOk result (AreUntaken nodes.now (2 ^ 64)) }
    ensures addresses { IfOk result (λ _. All (λ n. n.0 < 2 ^ 32) nodes.now) }
    ensures ranks { IfOk result (λ _. All (λ n. node_rank n < 2 ^ 64) nodes.now) }
{
    let mut left = BTreeMap::new(alloc);
    for node in nodes {
        left.insert(rank(node.0, &node.1), node)?;
    }
    Ok(left)
}
