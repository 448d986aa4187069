//! How many findings an image has of which a person is told, also an image that does not mount.

ghost use Rattle.std.specs.Prelude.{◌≡◌, ◌%◌, ◌^◌, ◌+◌, ◌<◌, ◌≤◌, IfErr, OnOk, length};
ghost use Rattle.jscan.specs.Extents.{extents};
ghost use Rattle.jscan.specs.Scans.{IsScannable};
ghost use Rattle.jreport.specs.FoundIn.{HasFindings, IsFindings, found_among, found_count, found_in};

use crate::extraction_notes::is_attribute;
use crate::faults::ProgramFault;
use crate::image_fault::ImageFault;
use crate::notes::is_noted;
use flashbase::Part;
use jnode::Order;
use jscan::{Extents, GREATEST_IMAGE, Geometry, block_at};

/// How many findings there are of which a person is told.
#[derive(Clone, Copy, Debug, PartialEq, Eq)]
pub struct Found {
    /// Of damage, dirt or the other byte order.
    pub noted: u64,
    /// Nodes of extended attributes.
    pub attributes: u64,
}

impl Found {
    /// How many are counted: of damage, dirt or the other byte order, or else of extended
    /// attributes.
    pub fn count(self) -> u64
        ensures { result ≡ found_count self }
    {
        match self.noted {
            0 => self.attributes,
            noted => noted,
        }
    }
}

/// Those of a block, which begins at the address `start`.
fn found_in_block<E: Order>(start: u32, block: Part<'_>) -> Found
    requires whole_words { length block % 4 ≡ 0 }
    requires addressed { start + length block < 2 ^ 32 }
    ensures found { result ≡ found_among (extents E.order start block.entry) }
    ensures noted { result.noted ≤ length block.entry }
    ensures attributes { result.attributes ≤ length block.entry }
{
    let mut found = Found {
        noted: 0,
        attributes: 0,
    };
    for extent in Extents::<E>::of_part(start, block) {
        if let Some(finding) = extent.finding() {
            found.noted += u64::from(is_noted(finding.kind));
            found.attributes += u64::from(is_attribute(finding.kind));
        }
    }
    found
}

/// Those of an image. It may be one that does not mount.
pub fn found_in<E: Order>(image: &[u8], geometry: Geometry) -> Found
    requires { IsScannable geometry.block image.now }
    ensures { result ≡ found_in E.order geometry.block image.now }
{
    let size = geometry.block as usize;
    let mut all = Found {
        noted: 0,
        attributes: 0,
    };
    for k in 0..image.len().div_ceil(size) {
        let start = k * size;
        let found = found_in_block::<E>(start as u32, block_at(image, start, size));
        all.noted += found.noted;
        all.attributes += found.attributes;
    }
    all
}

/// Refuses an image with damage, dirt or extended attributes, which one that is made of it would
/// not have; it is the file of this name.
pub fn refuse_findings<'a, E: Order>(
    image: &[u8],
    geometry: Geometry,
    name: &'a str,
) -> Result<(), ProgramFault<'a>>
    ensures ok { OnOk result (HasFindings E.order geometry.block image.now → ⊥) }
    ensures fault { IfErr result
        (IsFindings E.order geometry.block image.now name.entry.now) }
{
    if !geometry.is_readable() {
        return Ok(());
    }
    if GREATEST_IMAGE < image.len() {
        return Ok(());
    }
    let findings = found_in::<E>(image, geometry).count();
    if findings == 0 {
        return Ok(());
    }
    Err(ProgramFault::Image(ImageFault::Findings { name, findings }))
}
