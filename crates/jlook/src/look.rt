//! What an image shows if it is looked at, before it is mounted.

use jnode::Seen;
use jscan::Finding;
use jthrough::ViewFault;
use std::alloc::{AllocError, Global};

/// What an image shows if it is looked at, up to the first tile that refuses it.
#[derive(Drop)]
pub(crate) struct Look<'a> {
    /// The tiles that give nodes, as they are looked at, each with its address; those in front of
    /// the refusal, or all.
    pub(crate) tiles: Vec<(u32, Seen<'a>)>,
    /// The findings of an image that nothing refuses.
    pub(crate) findings: Vec<Finding>,
    /// Whether a node of an image that nothing refuses forbids writing.
    pub(crate) read_only: bool,
    /// Why the image is refused, if a tile refuses it by itself.
    pub(crate) refused: Option<ViewFault>,
    /// The content of the last tile.
    pub(crate) content: Vec<u8>,
}

impl<'a> Look<'a> {
    ghost use Rattle.std.specs.Prelude.{◌≡◌, ◌++◌, ◌||◌, OnOk, option_to_list};
    ghost use Rattle.jscan.specs.Scans.{forbids_writing};
    ghost use Rattle.jthrough.specs.View.{kept_tile};
    ghost use Rattle.jlook.specs.Look.{IsLookBegun};

    /// What an image shows in front of its first tile.
    pub(crate) fn new(alloc: Global) -> Self
        ensures { IsLookBegun result }
    {
        Look {
            tiles: Vec::new(alloc),
            findings: Vec::new(alloc),
            read_only: false,
            refused: None,
            content: Vec::new(alloc),
        }
    }

    /// Adds the findings of an image that nothing refuses.
    pub(crate) fn add_findings(&mut self, findings: &[Finding]) -> Result<(), AllocError>
        ensures found { OnOk result
            (self.new.findings.items ≡ self.old.findings.items ++ findings.now) }
        ensures tiles { self.new.tiles.items ≡ self.old.tiles.items }
        ensures read_only { self.new.read_only ≡ self.old.read_only }
        ensures refused { self.new.refused ≡ self.old.refused }
    {
        self.findings.extend_from_slice(findings)?;
        Ok(())
    }

    /// Adds a tile that nothing refuses.
    pub(crate) fn add_tile(&mut self, addr: u32, seen: Seen<'a>) -> Result<(), AllocError>
        ensures tiles { OnOk result (self.new.tiles.items
            ≡ self.old.tiles.items ++ option_to_list (kept_tile (addr, seen.entry))) }
        ensures read_only { OnOk result
            (self.new.read_only ≡ (self.old.read_only || forbids_writing seen.entry)) }
        ensures findings { self.new.findings.items ≡ self.old.findings.items }
        ensures refused { self.new.refused ≡ self.old.refused }
    {
        match seen {
            Seen::Entry(entry) => self.tiles.push((addr, Seen::Entry(entry)))?,
            Seen::Inode(inode) => self.tiles.push((addr, Seen::Inode(inode)))?,
            Seen::Compressed { compr } => self.tiles.push((addr, Seen::Compressed { compr }))?,
            Seen::ReadOnly { .. } => self.read_only = true,
            _ => {}
        }
        Ok(())
    }
}
