//! Which regions a dump of a whole flash has.
ghost use Rattle.std.specs.Prelude.{◌≤◌, length};
ghost use Rattle.jscan.specs.Image.{greatest_image};
ghost use Rattle.jedge.specs.Parting.{FindsRegions};

use crate::fault::Fault;
use jregions::{Regions, regions_of};
use std::alloc::Global;

/// The regions of a file that are told.
pub fn find_regions(alloc: Global, file: &[u8]) -> Result<Regions, Fault>
    requires { length file.now ≤ greatest_image }
    ensures { FindsRegions file.now result }
{
    match regions_of(alloc, file) {
        Ok(regions) => Ok(regions),
        Err(_) => Err(Fault::OutOfMemory),
    }
}
