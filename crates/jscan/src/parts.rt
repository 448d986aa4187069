//! Parts of a block: what an image has of it, and the missing tail, which counts as erased. A part
//! that the image has whole is read as the slice it is.

ghost use Rattle.std.specs.Prelude.{◌≡◌, ◌↔◌, ◌==◌, ◌*◌, ◌^◌, ◌<◌, ◌≤◌, ℕ, IfSome, IsSome, length, slice_index};
ghost use Rattle.std.specs.List.{list_all};
ghost use Rattle.jnode.specs.Header.{IsGood, header_of, magic_of};
ghost use Rattle.jscan.specs.Image.{block_of};

use byteorder::ByteOrder;
use flashbase::{Part, erased_run};
use jnode::{Header, Order, header_at, header_in};

/// Bytes of which none is missing.
pub(crate) fn whole(bytes: &[u8]) -> Part<'_>
    ensures { result ≡ bytes.now }
{
    Part::new(bytes, 0)
}

/// The block of `size` bytes of an image that begins at `start`. The missing tail of the last block
/// counts as erased.
pub fn block_at(image: &[u8], start: usize, size: usize) -> Part<'_>
    requires within { start ≤ length image.now }
    requires small { size < 2 ^ 32 }
    ensures { (k : ℕ) → k * size ≡ start → result ≡ block_of size image.now k }
{
    let len = size.min(image.len() - start);
    Part::new(&image[start..start + len], size - len)
}

/// The bytes of a part of which none is missing.
fn bytes_of<'a>(part: &Part<'a>) -> Option<&'a [u8]>
    ensures { IfSome result (λ bytes. bytes.now ≡ part.now) }
{
    let present = part.present();
    if present.len() == part.len() {
        Some(present)
    } else {
        None
    }
}

/// The good header at the start of the rest of a block.
pub(crate) fn header_of<E: Order>(rest: &Part<'_>) -> Option<Header>
    ensures good { IsSome result ↔ IsGood E.order rest.now }
    ensures fields { IfSome result (λ header. header ≡ header_of E.order rest.now) }
{
    match bytes_of(rest) {
        Some(bytes) => header_at::<E>(bytes),
        None => header_in::<E>(rest),
    }
}

/// How many bytes 0xFF a part begins with.
pub(crate) fn erased_run_of(part: &Part<'_>) -> usize
    ensures erased { (k : ℕ) → k < result → slice_index part.now k ≡ 0xFF }
{
    let present = part.present();
    let run = erased_run(present);
    if run < present.len() { run } else { part.len() }
}

/// Whether all bytes are 0xFF.
pub(crate) fn is_erased(part: &Part<'_>) -> bool
    ensures { result ≡ list_all (λ b. b == 0xFF) part.now }
{
    are_erased(part.present())
}

fn are_erased(bytes: &[u8]) -> bool
    ensures { result ≡ list_all (λ b. b == 0xFF) bytes.now }
{
    bytes.iter().all(|byte| *byte == 0xFF)
}

/// The magic number that a part begins with.
pub(crate) fn magic_of<E: Order>(part: &Part<'_>) -> u16
    requires { 2 ≤ length part.now }
    ensures { result ≡ magic_of E.order part.now }
{
    let present = part.present();
    if 2 <= present.len() {
        return E::read_u16(present);
    }
    let mut front = [0; 2];
    part.slice(0, 2).copy_to(&mut front);
    E::read_u16(&front)
}
