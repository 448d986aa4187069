//! The inode nodes of one number.

ghost use Rattle.std.specs.Prelude.{◌≡◌, ◌==◌, ◌<◌, ℕ, Some, None, Contains, OnOk, OnErr, if◌then◌else◌};
ghost use Rattle.jnode.specs.declared.node.InodeNode.{InodeNode};

use crate::older::{Older, agree, copied};
use jnode::InodeNode;
use std::alloc::{AllocError, AllocFailed, Global};

/// Why an inode node is not added.
#[derive(Clone, Copy, Debug, PartialEq, Eq)]
pub enum InodeFault {
    /// Another node of the same number and version has other contents.
    Clash,
    OutOfMemory,
}

impl From<AllocError> for InodeFault {
    ghost use Rattle.jmount.specs.declared.versions.InodeFault.TheVariants.{OutOfMemory};

    ghost from_gives = { λ _ fault. fault ≡ OutOfMemory };

    fn from(_error: AllocError) -> InodeFault {
        InodeFault::OutOfMemory
    }
}

impl<T: Drop> From<AllocFailed<T>> for InodeFault {
    ghost use Rattle.jmount.specs.declared.versions.InodeFault.TheVariants.{OutOfMemory};

    ghost from_gives = { λ _ fault. fault ≡ OutOfMemory };

    fn from(_error: AllocFailed<T>) -> InodeFault {
        InodeFault::OutOfMemory
    }
}

/// The nodes of one number. That of the greatest version is apart, since most numbers have no
/// other.
#[derive(Drop)]
pub struct Versions<'a> {
    pub newest: InodeNode<'a>,
    pub older: Older<'a>,
    ghost below: { (node : InodeNode) → Contains older.nodes.items node
        → node.version < newest.version },
}

impl<'a> Versions<'a> {
    ghost use Rattle.jmount.specs.Inodes.{InodeAgrees, InodeDiffers, inode_of_version, nodes_in};

    /// One node. Takes no memory.
    pub fn of_one(alloc: Global, node: InodeNode<'a>) -> Self
        ensures { (v : ℕ)
            → inode_of_version result v
            ≡ (if node.entry.version == v then Some node.entry else None) }
    {
        Versions {
            newest: node,
            older: Older::new(alloc),
        }
    }

    /// Adds a node.
    pub fn add(&mut self, alloc: Global, node: InodeNode<'a>) -> Result<(), InodeFault>
        ensures clash { result ≡ Err InodeFault.Clash
            → InodeDiffers (inode_of_version self.old node.entry.version) node.entry }
        ensures alone { OnOk result
            (InodeAgrees (inode_of_version self.old node.entry.version) node.entry) }
        ensures ok { OnOk result ((v : ℕ) → inode_of_version self.new v
            ≡ (if node.entry.version
            == v then Some node.entry else inode_of_version self.old v)) }
        ensures err { OnErr result (nodes_in self.new ≡ nodes_in self.old) }
        ensures same { OnErr result
            ((v : ℕ) → inode_of_version self.new v ≡ inode_of_version self.old v) }
    {
        if node.version == self.newest.version {
            return agree(&self.newest, &node);
        }
        if node.version < self.newest.version {
            return self.older.add(alloc, node);
        }
        self.older.push(copied(&self.newest))?;
        self.newest = node;
        Ok(())
    }
}
