//! What a scan gives.

use crate::extent::{Extent, ExtentKind};
use crate::finding::Finding;
use crate::geometry::ScanFault;
use jnode::{NodeRef, Seen};
use std::alloc::{AllocError, Global};

/// What an image contains up to its first refusal, by the addresses.
#[derive(Drop)]
pub struct PartialScan<'a> {
    /// The nodes in front of the refusal, or all; each with its address.
    pub nodes: Vec<(u32, NodeRef<'a>)>,
    /// The findings of an image that nothing refuses.
    pub findings: Vec<Finding>,
    /// Whether a node of an image that nothing refuses forbids writing.
    pub read_only: bool,
    /// The refusal of least address: `Incompatible` or `Compressed`.
    pub refused: Option<ScanFault>,
}

impl<'a> PartialScan<'a> {
    ghost use Rattle.std.specs.Prelude.{List, [], ◌∷◌, ◌++◌, OnOk};
    ghost use Rattle.jscan.specs.PartialScans.{Adds, HasScanned};
    ghost use Rattle.jscan.specs.declared.extent.Extent.{Extent};

    /// A scan in front of the first extent.
    pub fn new(alloc: Global) -> Self
        ensures { HasScanned [] result }
    {
        PartialScan {
            nodes: Vec::new(alloc),
            findings: Vec::new(alloc),
            read_only: false,
            refused: None,
        }
    }

    /// Scans the next extent of an image. What comes after a refusal is passed over. Where memory
    /// runs out, the scan may lack a part of the extent, and is of no more use.
    pub fn take(&mut self, extent: Extent<'a>) -> Result<(), AllocError>
        ensures { (ss : List Extent) → HasScanned ss self.old
            → OnOk result (HasScanned (ss ++ extent.entry ∷ []) self.new) }
    {
        if self.refused.is_some() {
            return Ok(());
        }
        match extent.refusal() {
            Some(refusal) => {
                self.refused = Some(refusal);
                Ok(())
            }
            None => self.add(extent),
        }
    }

    /// Takes in an extent that is no refusal.
    pub(crate) fn add(&mut self, extent: Extent<'a>) -> Result<(), AllocError>
        ensures { OnOk result (Adds self.old self.new extent.entry) }
    {
        if let Some(finding) = extent.finding() {
            self.findings.push(finding)?;
        }
        let Extent { addr, kind, .. } = extent;
        match kind {
            ExtentKind::Tiled(Seen::Entry(entry)) => self
                .nodes
                .push((addr, NodeRef::Entry(entry)))?,
            ExtentKind::Tiled(Seen::Inode(inode)) => self
                .nodes
                .push((addr, NodeRef::Inode(inode)))?,
            ExtentKind::Tiled(Seen::ReadOnly { .. }) => self.read_only = true,
            _ => {}
        }
        Ok(())
    }
}

/// What an image that nothing refuses contains, by the addresses.
#[derive(Drop)]
pub struct Scan<'a> {
    pub nodes: Vec<(u32, NodeRef<'a>)>,
    pub findings: Vec<Finding>,
    /// Whether a node forbids writing.
    pub read_only: bool,
}
