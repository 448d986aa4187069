//! The bytes of a revision.

ghost use Rattle.std.specs.Prelude.{◌≡◌, ◌==◌, ◌||◌};
ghost use Rattle.flashbase.specs.Sinks.{change_of};
ghost use Rattle.jmount.specs.Tree.{object, regular_bits, symlink_bits, type_bits};
ghost use Rattle.jversions.specs.Answers.{PutsObject, PutsRevision};

use crate::fault::RevisionFault;
use crate::mounting::mount_revision;
use crate::revision::Revision;
use flashbase::Sink;
use jmount::{Mounted, Object, REGULAR_BITS, type_bits};
use jnode::Order;
use jscan::Geometry;
use std::alloc::Global;

/// Bits 12 to 15 of the mode of a symlink (Linux, `include/uapi/linux/stat.h`).
const SYMLINK_BITS: u32 = 10;

/// Whether an object has bytes: whether it is a regular file or a symlink.
fn has_bytes(object: &Object) -> bool
    ensures { result ≡ ((type_bits object.now.mode == regular_bits)
        || (type_bits object.now.mode == symlink_bits)) }
{
    matches!(type_bits(object.mode), REGULAR_BITS | SYMLINK_BITS)
}

/// Puts the bytes of an object of a mount.
fn put_object<T: Sink>(mounted: &Mounted<'_>, ino: u32, sink: &mut T) -> Result<(), RevisionFault>
    ensures { PutsObject (object mounted.now.state ino) (change_of T.Sink sink.old sink.new)
        result }
{
    let Some(object) = mounted.object(ino) else {
        return Err(RevisionFault::NoNode);
    };
    if !has_bytes(&object) {
        return Err(RevisionFault::NoContent);
    }
    mounted.put_bytes(ino, sink)?;
    Ok(())
}

/// Puts the bytes that an object had, by its nodes up to a version: a regular file's, or a
/// symlink's target. Its nodes of no higher version are taken as if they were all that the image
/// has: each byte below the size that the newest of them says is that of the highest version that
/// covers it, else zero. Names count for nothing, so the object may be deleted. A node that is
/// marked obsolete or is damaged is not taken, and one of a type that is not known refuses nothing.
///
/// The data of these nodes are decompressed; nothing is of the others. n nodes of the object take
/// O(n log n) beside one walk over the image, and memory for these nodes and their contents.
///
/// # Errors
/// Nothing was put: `Refused`, with `BlockSize` or `TooLarge` before any byte is read; then with
/// `Compressed`, `Data` or `TooLong` at the first of these nodes whose data are not decompressed or
/// held; then with `Clash`, at the first of them that contradicts one before it; then with
/// `RootKind`, if the object is the root and no directory. `OutOfMemory` may come at any time.
/// `NoNode`: there are none of these nodes, and the object is not the root. `NoContent`: the newest
/// of them is of neither a regular file nor a symlink, or there are none of the root.
///
/// `Output`: the sink failed, and took a beginning.
pub fn put_revision<E: Order, T: Sink>(
    alloc: Global,
    image: &[u8],
    geometry: Geometry,
    revision: Revision,
    sink: &mut T,
) -> Result<(), RevisionFault>
    ensures { PutsRevision revision E.order geometry.block image.now
        (change_of T.Sink sink.old sink.new) result }
{
    let mut contents = Vec::new(alloc);
    let mounted = mount_revision::<E>(alloc, image, geometry, revision, &mut contents)?;
    put_object(&mounted, revision.ino, sink)
}
