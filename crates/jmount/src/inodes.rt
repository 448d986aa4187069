//! The inode nodes of an image, by number and version.

ghost use Rattle.std.specs.Prelude.{◌≡◌, ◌==◌, ◌&&◌, ℕ, Some, Err, OnOk, OnErr, if◌then◌else◌};
ghost use Rattle.std.specs.Ordering.{nat_cmp};
ghost use Rattle.std.specs.BTreeMap.{IsOrdered};
ghost use Rattle.jmount.specs.Inodes.{InodeAgrees, InodeDiffers, inode_at, nodes_of_numbers};

use crate::stored::Stored;
use crate::storing::objects_with_root;
use crate::versions::{InodeFault, Versions};
use jnode::InodeNode;
use std::alloc::{AllocError, Global};
use std::collections::BTreeMap;
use std::marker::Model;

pub type NodesByNumber<'a> = BTreeMap<u32, Versions<'a>>;

/// The inode nodes of an image. Contracts see the list of them; its order says nothing.
#[derive(Drop)]
pub struct Inodes<'a> {
    numbers: NodesByNumber<'a>,
    alloc: Global,
}

impl<'a> Model for Inodes<'a> {
    ghost use Rattle.std.specs.Prelude.{List};
    ghost use Rattle.std.specs.Ordering.{nat_cmp};
    ghost use Rattle.std.specs.BTreeMap.{IsOrdered};
    ghost use Rattle.jnode.specs.declared.node.InodeNode.{InodeNode};
    ghost use Rattle.jmount.specs.Inodes.{IsKeyed, nodes_of_numbers};

    ghost Value = { List InodeNode };

    ghost view = { λ inodes. nodes_of_numbers inodes.numbers };

    ghost invariant = { λ inodes. IsOrdered nat_cmp inodes.numbers × IsKeyed inodes.numbers };
}

impl<'a> Inodes<'a> {
    ghost use Rattle.std.specs.Prelude.{[], ◌<◌, ◌^◌, All, IfOk, option_map};
    ghost use Rattle.std.specs.BTreeMap.{get};
    ghost use Rattle.jfrag.specs.Pieces.{end_of};
    ghost use Rattle.jmount.specs.StateOf.{piece_of};
    ghost use Rattle.jmount.specs.Storing.{made_of, as_made};
    ghost use Rattle.jmount.specs.Clash.{NoInodeClashesWith, SomeInodeClashesWith};
    ghost use Rattle.jmount.specs.Inodes.{GainsInode};
    ghost use Rattle.jmount.specs.Kept.{HasNoDirectories};

    /// No nodes.
    pub fn new(alloc: Global) -> Inodes<'a>
        ensures { result ≡ [] }
    {
        Inodes {
            numbers: BTreeMap::new(alloc),
            alloc,
        }
    }

    /// Adds a node. One that was added already changes nothing. O(log n) for n nodes.
    ///
    /// `Clash`: a node of the same number and version, with other contents, was added before. After
    /// a fault the nodes are those from before.
    pub fn add(&mut self, node: InodeNode<'a>) -> Result<(), InodeFault>
        ensures ok { OnOk result (GainsInode self.old self.new node.entry) }
        ensures alone { OnOk result (NoInodeClashesWith self.old node.entry) }
        ensures clash { result ≡ Err InodeFault.Clash → SomeInodeClashesWith self.old node.entry }
        ensures err { OnErr result (self.new ≡ self.old) }
    {
        add_node(self.alloc, &mut self.numbers, node)
    }

    /// The objects that the nodes make, by their numbers, and the root, which every image has. O(n
    /// log n) for n nodes of which no two clash.
    pub fn into_objects(self) -> Result<BTreeMap<u32, Stored<'a>>, AllocError>
        requires ends { All (λ node. end_of (piece_of node) < 2 ^ 32) self }
        ensures each { IfOk result
            (λ objects. (i : ℕ)
            → option_map as_made (get nat_cmp objects i) ≡ made_of self.entry i) }
        ensures none { IfOk result HasNoDirectories }
        ensures ordered { IfOk result (IsOrdered nat_cmp) }
    {
        objects_with_root(self.alloc, self.numbers)
    }
}

/// Adds a node to those of its number.
fn add_node<'a>(
    alloc: Global,
    numbers: &mut NodesByNumber<'a>,
    node: InodeNode<'a>,
) -> Result<(), InodeFault>
    ensures clash { result ≡ Err InodeFault.Clash
        → InodeDiffers (inode_at numbers.old node.entry.ino node.entry.version) node.entry }
    ensures alone { OnOk result
        (InodeAgrees (inode_at numbers.old node.entry.ino node.entry.version) node.entry) }
    ensures ok { OnOk result ((i v : ℕ) → inode_at numbers.new i v
        ≡ (if node.entry.ino == i
        && node.entry.version == v then Some node.entry else inode_at numbers.old i v)) }
    ensures err { OnErr result (nodes_of_numbers numbers.new ≡ nodes_of_numbers numbers.old) }
    ensures same { OnErr result ((i v : ℕ) → inode_at numbers.new i v ≡ inode_at numbers.old i v) }
    ensures ordered { IsOrdered nat_cmp numbers.new }
{
    if let Some(versions) = numbers.get_mut(&node.ino) {
        return versions.add(alloc, node);
    }
    let ino = node.ino;
    numbers.insert(ino, Versions::of_one(alloc, node))?;
    Ok(())
}
