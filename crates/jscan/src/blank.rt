//! Where writing may go on.

ghost use Rattle.std.specs.Prelude.{◌≡◌, ◌↔◌, ◌≤◌, ◌*◌, ◌-◌, ◌++◌, true, IsTrue, bytes_eq, length, take};
ghost use Rattle.flashbase.specs.Bytes.{erased};
ghost use Rattle.jscan.specs.Blank.{is_blank, IsBlankFrom};
ghost use Rattle.jscan.specs.Image.{is_block_size};

use crate::geometry::Geometry;
use crate::parts::block_at;
use flashbase::{Part, erased_run};
use jnode::{Order, marker_bytes};

/// Whether all bytes of a part are erased.
fn is_erased(part: &Part<'_>) -> bool
    ensures { IsTrue result ↔ (part.now ≡ erased (length part.now)) }
{
    let present = part.present();
    erased_run(present) == present.len()
}

/// Whether a block begins with these bytes.
fn begins_with(block: &Part<'_>, front: &[u8]) -> bool
    requires { length front.now ≤ length block.now }
    ensures { IsTrue result ↔ (take (length front.now) block.now ≡ front.now) }
{
    for place in 0..front.len() {
        if block.get(place).unwrap_or(0xFF) != front[place] {
            return false;
        }
    }
    true
}

/// Whether a block holds the first `len` bytes of the marker, and is erased after them.
fn is_marked(block: &Part<'_>, marker: &[u8], len: usize) -> bool
    requires short { len ≤ length marker.now }
    requires within { len ≤ length block.now }
    ensures { result ≡ bytes_eq block.now (take len marker.now ++ erased (length block.now - len)) }
{
    begins_with(block, &marker[..len]) && is_erased(&block.slice(len, block.len() - len))
}

/// Whether a block is blank: it holds a beginning of the clean marker, or nothing, and is erased
/// after it.
fn is_blank<E: Order>(block: &Part<'_>) -> bool
    requires { 12 ≤ length block.now }
    ensures { result ≡ is_blank E.order (length block.now) block.now }
{
    let marker = marker_bytes::<E>();
    for len in 0..marker.len() + 1 {
        if is_marked(block, &marker, len) {
            return true;
        }
    }
    false
}

/// The least block of a flash of so many blocks from which on all are blank. What the image lacks
/// is erased, so the blocks past it are blank.
pub fn blank_from<E: Order>(image: &[u8], geometry: Geometry, blocks: u32) -> u32
    requires readable { is_block_size geometry.block ≡ true }
    requires within { length image.now ≤ blocks * geometry.block }
    ensures { IsBlankFrom E.order geometry.block image.now blocks result }
{
    let size = geometry.block as usize;
    let mut first = image.len().div_ceil(size);
    while 0 < first && is_blank::<E>(&block_at(image, (first - 1) * size, size)) {
        first -= 1;
    }
    first as u32
}
