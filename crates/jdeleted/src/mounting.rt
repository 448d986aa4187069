//! Mounting the deleted files of an image.

ghost use Rattle.std.specs.Prelude.{◌≡◌, IfErr, IfOk};
ghost use Rattle.jscan.specs.Scans.{IsScannable};
ghost use Rattle.jdeleted.specs.FlatMounts.{AnswersDeleted};

use crate::entries::flat_nodes;
use crate::files::{DeletedFile, deleted_files};
use jmount::{Mounted, mount_nodes};
use jnode::Order;
use jscan::Geometry;
use jthrough::{ViewFault, mount_view, nodes_through, view_image};
use std::alloc::Global;

/// Mounts the deleted files of an image: the regular files with content that no path leads to, by
/// all of the image's nodes. Each is an entry of the root, under its number in decimal digits, a
/// dash and the last name that an entry ever gave it, by the order of addresses, cut to 254 bytes;
/// or under its number alone. There are no other names. Objects, findings and the root's attributes
/// are those of the image.
///
/// The contents of compressed nodes take the place of the bytes in `contents`, and the files that
/// of those in `files`. n nodes take O(n log n).
///
/// # Errors
/// As of `jthrough::mount_through`.
pub fn mount_deleted<'a, E: Order>(
    alloc: Global,
    image: &'a [u8],
    geometry: Geometry,
    contents: &'a mut Vec<u8>,
    files: &'a mut Vec<DeletedFile>,
) -> Result<Mounted<'a>, ViewFault>
    ensures { AnswersDeleted E.order geometry.block image.now result }
{
    let view = view_image::<E>(alloc, image, geometry, contents)?;
    let held = contents.as_slice();
    let mounted = mount_view::<E>(alloc, image, geometry, view, held)?;
    let nodes = nodes_through::<E>(alloc, image, geometry, held)?;
    *files = deleted_files(alloc, &mounted, &nodes)?;
    let flat = flat_nodes(nodes, files.as_slice())?;
    let findings = mounted.findings().to_vec(alloc)?;
    match mount_nodes(alloc, image, flat, findings, mounted.read_only()) {
        Ok(flat) => Ok(flat),
        Err(why) => Err(ViewFault::from(why)),
    }
}
