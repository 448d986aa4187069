//! Which layout a dump with spare bytes has.
ghost use Rattle.jedge.specs.Sparing.{FindsSpare};

use crate::fault::Fault;
use jspare::{PageLayout, spare_shown};
use std::alloc::Global;

/// The layout of a dump with spare bytes, if it shows one.
pub fn find_spare(alloc: Global, image: &[u8]) -> Result<Option<PageLayout>, Fault>
    ensures { FindsSpare image.now result }
{
    match spare_shown(alloc, image) {
        Ok(spare) => Ok(spare),
        Err(_) => Err(Fault::OutOfMemory),
    }
}
