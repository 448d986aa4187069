//! A revision as a mount of its nodes alone.

ghost use Rattle.jversions.specs.Answers.{AnswersRevision};

use crate::revision::Revision;
use crate::taking::take_tiles;
use jmount::{Mounted, mount_nodes};
use jnode::Order;
use jscan::Geometry;
use jthrough::{ViewFault, nodes_of};
use std::alloc::Global;

/// Mounts the nodes of a revision, and no others. The contents of the compressed ones take the
/// place of the bytes in `contents`, which the mount borrows.
pub(crate) fn mount_revision<'a, E: Order>(
    alloc: Global,
    image: &'a [u8],
    geometry: Geometry,
    revision: Revision,
    contents: &'a mut Vec<u8>,
) -> Result<Mounted<'a>, ViewFault>
    ensures { AnswersRevision revision E.order geometry.block image.now result }
{
    let tiles = take_tiles::<E>(alloc, image, geometry, revision, contents)?;
    let nodes = nodes_of::<E>(alloc, image, geometry, tiles, contents)?;
    match mount_nodes(alloc, image, nodes, Vec::new(alloc), false) {
        Ok(mounted) => Ok(mounted),
        Err(why) => Err(ViewFault::from(why)),
    }
}
