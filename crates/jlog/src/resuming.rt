//! Where writing goes on in a mounted image.

ghost use Rattle.std.specs.Prelude.{◌≡◌, ◌*◌, ◌&&◌, nat_le};
ghost use Rattle.jmount.specs.Mounts.{IsMountOf};
ghost use Rattle.jlog.specs.Places.{is_writable_flash};
ghost use Rattle.jlog.specs.Resuming.{resumes_at, page_fits};

use crate::fault::SessionFault;
use jmount::Mounted;
use jnode::{INODE_LEN, MARKER_LEN, Order};
use jscan::{GREATEST_IMAGE, Geometry, Page, blank_from};

/// The least size of a block that is written, in bytes.
const LEAST_WRITTEN: u32 = 8192;

/// Whether a flash of so many blocks is one that is written, and holds an image of `len` bytes.
fn holds(geometry: Geometry, blocks: u32, len: usize) -> bool
    ensures { result
        ≡ (is_writable_flash geometry.block blocks && nat_le len (blocks * geometry.block)) }
{
    let bytes = u64::from(blocks) * u64::from(geometry.block);
    geometry.is_readable()
        && LEAST_WRITTEN <= geometry.block
        && 0 < blocks
        && bytes <= GREATEST_IMAGE as u64
        && len as u64 <= bytes
}

/// The address where writing goes on in a mounted image on a flash of so many blocks: that of the
/// block from which on the flash is blank. It is in `E`'s order and of the geometry that the image
/// was mounted with. Takes no memory.
///
/// # Errors
/// `ReadOnly`: a node of the image says that it may not be written. Else `Geometry`: blocks of this
/// size are not written (from 8 KiB to 4 MiB are), there is no block, the flash is larger than 256
/// MiB, or the image is larger than the flash.
pub fn resume_at<E: Order>(
    mounted: &Mounted<'_>,
    geometry: Geometry,
    blocks: u32,
) -> Result<u32, SessionFault>
    requires { IsMountOf E.order geometry.block mounted.now }
    ensures { result ≡ resumes_at E.order geometry.block blocks mounted.now }
{
    if mounted.read_only() {
        return Err(SessionFault::ReadOnly);
    }
    let image = mounted.image();
    if !holds(geometry, blocks, image.len()) {
        return Err(SessionFault::Geometry);
    }
    Ok(blank_from::<E>(image, geometry, blocks) * geometry.block)
}

/// Whether a block of this size holds its marker and a node of a page's bytes: it is at least 80
/// bytes larger.
pub fn page_fits(geometry: Geometry, page: Page) -> bool
    ensures { result ≡ page_fits geometry.block page }
{
    page.size() + (MARKER_LEN + INODE_LEN) as u32 <= geometry.block
}
