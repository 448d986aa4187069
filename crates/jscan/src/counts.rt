//! What a scan counts.

ghost use Rattle.std.specs.Prelude.{◌≡◌, ◌+◌, ◌%◌, ◌<◌, ◌^◌, length};
ghost use Rattle.jscan.specs.Counts.{is_entry_tile, is_inode_tile, is_found, counted, block_counted};
ghost use Rattle.jscan.specs.Extents.{extents};

use crate::extent::ExtentKind;
use crate::extents::Extents;
use jnode::{Order, Seen};

/// What some blocks contain.
#[derive(Clone, Copy, Debug, PartialEq, Eq)]
pub struct Counts {
    pub blocks: u64,
    /// Tiles seen as entry nodes.
    pub entries: u64,
    /// Tiles seen as inode nodes.
    pub inodes: u64,
    /// Tiles that are not read, and runs of words that are not erased.
    pub findings: u64,
}

impl ExtentKind<'_> {
    /// Whether it is an entry node.
    pub fn is_entry(&self) -> bool
        ensures { result ≡ is_entry_tile self.now }
    {
        matches!(self, ExtentKind::Tiled(Seen::Entry(_)))
    }

    /// Whether it is an inode node.
    pub fn is_inode(&self) -> bool
        ensures { result ≡ is_inode_tile self.now }
    {
        matches!(self, ExtentKind::Tiled(Seen::Inode(_)))
    }

    /// Whether it counts as found: a node that is not read, or words that are not erased.
    pub fn is_finding(&self) -> bool
        ensures { result ≡ is_found self.now }
    {
        match self {
            ExtentKind::Tiled(
                Seen::Attribute
                | Seen::ReadOnly { .. }
                | Seen::Incompatible { .. }
                | Seen::Compressed { .. }
                | Seen::Damaged { .. },
            )
            | ExtentKind::OtherOrder
            | ExtentKind::Dirt => true,
            ExtentKind::Tiled(_) | ExtentKind::Erased => false,
        }
    }
}

impl Counts {
    /// Counts one extent more, of a block that is counted.
    pub fn add(&mut self, kind: &ExtentKind<'_>)
        requires entries { self.old.entries + 1 < 2 ^ 64 }
        requires inodes { self.old.inodes + 1 < 2 ^ 64 }
        requires findings { self.old.findings + 1 < 2 ^ 64 }
        ensures { self.new ≡ counted self.old kind.now }
    {
        if kind.is_entry() {
            self.entries += 1;
        }
        if kind.is_inode() {
            self.inodes += 1;
        }
        if kind.is_finding() {
            self.findings += 1;
        }
    }

    /// Counts one block more, which begins at the address `start` of its image.
    pub(crate) fn add_block<E: Order>(&mut self, start: u32, block: &[u8])
        requires whole_words { length block.now % 4 ≡ 0 }
        requires addressed { start + length block.now < 2 ^ 32 }
        requires blocks { self.old.blocks + 1 < 2 ^ 64 }
        requires entries { self.old.entries + length block.now < 2 ^ 63 }
        requires inodes { self.old.inodes + length block.now < 2 ^ 63 }
        requires findings { self.old.findings + length block.now < 2 ^ 63 }
        ensures { self.new ≡ block_counted self.old (extents E.order start block.now) }
    {
        self.blocks += 1;
        for extent in Extents::<E>::new(start, block) {
            self.add(&extent.kind);
        }
    }
}
