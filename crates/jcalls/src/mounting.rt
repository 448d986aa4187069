//! The file system that an image shows as a caller asks.

ghost use Rattle.std.specs.Prelude.{◌≡◌, IfOk, IfErr, true, false};
ghost use Rattle.jcalls.specs.Asked.{is_through, asked_order};
ghost use Rattle.jcalls.specs.Shown.{ShowsBy, RefusesBy, Shows, ShowsNone, IsDueFault};

use crate::how::How;
use crate::told::{Told, mount_told, view_told};
use byteorder::{BigEndian, LittleEndian};
use jmount::{Mounted, mount};
use jnode::Order;
use jscan::Geometry;
use jthrough::mount_through;
use std::alloc::Global;

/// That of its nodes.
pub(crate) fn mount_plain<'a, E: Order>(
    alloc: Global,
    image: &'a [u8],
    block: u32,
) -> Result<Mounted<'a>, Told>
    ensures ok { IfOk result (λ mount. ShowsBy false E.order block image.now mount.state) }
    ensures err { IfErr result (IsDueFault (RefusesBy false E.order block image.now)) }
{
    match mount::<E>(alloc, image, Geometry { block }) {
        Ok(mounted) => Ok(mounted),
        Err(why) => Err(mount_told(why)),
    }
}

/// The one through its compression, whose contents take the place of the bytes in `contents`.
fn mount_packed<'a, E: Order>(
    alloc: Global,
    image: &'a [u8],
    block: u32,
    contents: &'a mut Vec<u8>,
) -> Result<Mounted<'a>, Told>
    ensures ok { IfOk result (λ mount. ShowsBy true E.order block image.now mount.state) }
    ensures err { IfErr result (IsDueFault (RefusesBy true E.order block image.now)) }
{
    match mount_through::<E>(alloc, image, Geometry { block }, contents) {
        Ok(mounted) => Ok(mounted),
        Err(why) => Err(view_told(why)),
    }
}

/// The one or the other.
fn mount_by<'a, E: Order>(
    alloc: Global,
    image: &'a [u8],
    how: How,
    contents: &'a mut Vec<u8>,
) -> Result<Mounted<'a>, Told>
    ensures ok { IfOk result
        (λ mount. ShowsBy (is_through how) E.order how.block image.now mount.state) }
    ensures err { IfErr result
        (IsDueFault (RefusesBy (is_through how) E.order how.block image.now)) }
{
    if how.is_through() {
        mount_packed::<E>(alloc, image, how.block, contents)
    } else {
        mount_plain::<E>(alloc, image, how.block)
    }
}

/// The file system that an image shows as a caller asks. `contents` takes the contents of its
/// compressed nodes.
pub(crate) fn mount_asked<'a>(
    alloc: Global,
    image: &'a [u8],
    how: How,
    contents: &'a mut Vec<u8>,
) -> Result<Mounted<'a>, Told>
    ensures ok { IfOk result (λ mount. Shows how image.now mount.state) }
    ensures err { IfErr result (IsDueFault (ShowsNone how image.now)) }
{
    if how.is_big() {
        mount_by::<BigEndian>(alloc, image, how, contents)
    } else {
        mount_by::<LittleEndian>(alloc, image, how, contents)
    }
}
