//! Where a log goes on in an image mounted through its compression.

ghost use Rattle.std.specs.Prelude.{◌≡◌, ◌*◌, ◌&&◌, nat_le};
ghost use Rattle.jlog.specs.Places.{is_writable_flash};
ghost use Rattle.jlog.specs.Resuming.{resumes_by};

use jlog::{SessionFault, page_fits};
use jmount::Mounted;
use jnode::Order;
use jscan::{GREATEST_IMAGE, Geometry, Page, blank_from};

/// The least size of a block that is written, in bytes.
const LEAST_WRITTEN: u32 = 8192;

/// Whether a flash of so many blocks is one that is written, and holds an image of `len` bytes.
fn holds(geometry: Geometry, blocks: u32, len: usize) -> bool
    ensures { result
        ≡ (is_writable_flash geometry.block blocks && nat_le len (blocks * geometry.block)) }
{
    let bytes = u64::from(blocks) * u64::from(geometry.block);
    geometry.is_readable()
        && LEAST_WRITTEN <= geometry.block
        && 0 < blocks
        && bytes <= GREATEST_IMAGE as u64
        && len as u64 <= bytes
}

/// The address where writing goes on in the tail of an image: that of the block from which on the
/// flash is blank. Takes no memory.
///
/// # Errors
/// `ReadOnly` and `Geometry` as a session of `jlog` answers them.
pub fn start_at<E: Order>(
    mounted: &Mounted<'_>,
    geometry: Geometry,
    blocks: u32,
    page: Page,
) -> Result<u32, SessionFault>
    ensures { result ≡ resumes_by page E.order geometry.block blocks mounted.now }
{
    if mounted.read_only() {
        return Err(SessionFault::ReadOnly);
    }
    let image = mounted.image();
    if !holds(geometry, blocks, image.len()) || !page_fits(geometry, page) {
        return Err(SessionFault::Geometry);
    }
    Ok(blank_from::<E>(image, geometry, blocks) * geometry.block)
}
