//! What an image shows before any of its data are wanted.

use jnode::{Order, Seen};
use jscan::{Extent, ExtentKind, Finding, Geometry, ImageExtents};
use jthrough::ViewFault;
use std::alloc::{AllocError, Global};

/// The nodes' tiles of an image, in the order of their addresses, and its findings. All checksums
/// were taken.
#[derive(Drop)]
pub(crate) struct Sighted<'a> {
    pub(crate) tiles: Vec<(u32, Seen<'a>)>,
    pub(crate) findings: Vec<Finding>,
}

impl<'a> Sighted<'a> {
    ghost use Rattle.std.specs.Prelude.{◌≡◌, ◌++◌, [], IfErr, IfOk, OnOk, option_to_list};
    ghost use Rattle.jscan.specs.Extents.{sighted};
    ghost use Rattle.jscan.specs.Findings.{finding_of};
    ghost use Rattle.jthrough.specs.View.{IsUnviewed};
    ghost use Rattle.jlook.specs.Look.{IsSightedOf};

    fn new(alloc: Global) -> Self
        ensures tiles { result.tiles.items ≡ [] }
        ensures findings { result.findings.items ≡ [] }
    {
        Sighted {
            tiles: Vec::new(alloc),
            findings: Vec::new(alloc),
        }
    }

    /// Adds the next extent of the image.
    fn add(&mut self, extent: Extent<'a>) -> Result<(), AllocError>
        ensures tiles { OnOk result
            (self.new.tiles.items ≡ self.old.tiles.items ++ option_to_list (sighted extent.entry)) }
        ensures findings { OnOk result (self.new.findings.items
            ≡ self.old.findings.items ++ option_to_list (finding_of extent.entry)) }
    {
        if let Some(finding) = extent.finding() {
            self.findings.push(finding)?;
        }
        let Extent { addr, kind, .. } = extent;
        if let ExtentKind::Tiled(seen) = kind {
            self.tiles.push((addr, seen))?;
        }
        Ok(())
    }

    /// Goes over an image once. The missing tail of the last block counts as erased.
    ///
    /// # Errors
    /// `BlockSize` or `TooLarge`, before any byte is read. `OutOfMemory` may come at any time.
    pub(crate) fn of<E: Order>(
        alloc: Global,
        image: &'a [u8],
        geometry: Geometry,
    ) -> Result<Self, ViewFault>
        ensures sighted { IfOk result (IsSightedOf E.order geometry.block image.now) }
        ensures err { IfErr result (IsUnviewed geometry.block image.now) }
    {
        let mut sighted = Sighted::new(alloc);
        for extent in ImageExtents::<E>::new(image, geometry)? {
            sighted.add(extent)?;
        }
        Ok(sighted)
    }
}
