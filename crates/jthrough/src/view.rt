//! What an image shows through its compression, before it is mounted.

use crate::fault::ViewFault;
use jnode::Seen;
use jscan::{Extent, Finding};
use std::alloc::{AllocError, Global};

/// What an image shows through its compression, up to the first node that refuses it.
#[derive(Drop)]
pub struct View<'a> {
    /// The tiles that give nodes, each with its address; those in front of the refusal, or all.
    pub tiles: Vec<(u32, Seen<'a>)>,
    /// The findings of an image that nothing refuses.
    pub findings: Vec<Finding>,
    /// Whether a node of an image that nothing refuses forbids writing.
    pub read_only: bool,
    /// Why the image is refused, if a node refuses it by itself.
    pub refused: Option<ViewFault>,
    /// The content of the last tile.
    pub(crate) content: Vec<u8>,
}

impl<'a> View<'a> {
    ghost use Rattle.std.specs.Prelude.{◌≡◌, ◌++◌, ◌||◌, [], None, false, OnOk, option_to_list};
    ghost use Rattle.jscan.specs.Findings.{finding_of};
    ghost use Rattle.jscan.specs.Scans.{forbids_writing};
    ghost use Rattle.jthrough.specs.View.{IsViewBegun, kept_tile};

    /// What an image shows in front of its first extent.
    pub(crate) fn new(alloc: Global) -> Self
        ensures { IsViewBegun result }
    {
        View {
            tiles: Vec::new(alloc),
            findings: Vec::new(alloc),
            read_only: false,
            refused: None,
            content: Vec::new(alloc),
        }
    }

    /// Adds what an extent has that is a finding.
    pub(crate) fn add_finding(&mut self, extent: &Extent<'_>) -> Result<(), AllocError>
        ensures found { OnOk result (self.new.findings.items
            ≡ self.old.findings.items ++ option_to_list (finding_of extent.now)) }
        ensures tiles { self.new.tiles.items ≡ self.old.tiles.items }
        ensures read_only { self.new.read_only ≡ self.old.read_only }
        ensures refused { self.new.refused ≡ self.old.refused }
    {
        if let Some(finding) = extent.finding() {
            self.findings.push(finding)?;
        }
        Ok(())
    }

    /// Adds a tile that nothing refuses.
    pub(crate) fn add_tile(&mut self, addr: u32, seen: Seen<'a>) -> Result<(), AllocError>
        ensures tiles { OnOk result (self.new.tiles.items
            ≡ self.old.tiles.items ++ option_to_list (kept_tile (addr, seen.entry))) }
        ensures read_only { OnOk result
            (self.new.read_only ≡ (self.old.read_only || forbids_writing seen.entry)) }
        ensures findings { self.new.findings.items ≡ self.old.findings.items }
        ensures refused { self.new.refused ≡ self.old.refused }
    {
        match seen {
            Seen::Entry(entry) => self.tiles.push((addr, Seen::Entry(entry)))?,
            Seen::Inode(inode) => self.tiles.push((addr, Seen::Inode(inode)))?,
            Seen::Compressed { compr } => self.tiles.push((addr, Seen::Compressed { compr }))?,
            Seen::ReadOnly { .. } => self.read_only = true,
            _ => {}
        }
        Ok(())
    }
}
