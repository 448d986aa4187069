//! Images of the same nodes, decompressed or compressed.

ghost use Rattle.std.specs.Prelude.{◌≡◌, ◌≢◌, ◌⊎◌, IfOk, IfErr};
ghost use Rattle.jcalls.specs.Asked.{asked_order};
ghost use Rattle.jcalls.specs.Made as made;
ghost use Rattle.jcalls.specs.Made.{GivesMade, NeedsForMade};
ghost use Rattle.jcalls.specs.Shown.{IsDueFault};
ghost use Rattle.jcalls.specs.Told.{told_by};

use crate::giving::give_all;
use crate::how::How;
use crate::told::{Fault, Told, convert_told, tell};
use byteorder::{BigEndian, LittleEndian};
use flashbase::FromWriter;
use jnode::Order;
use jscan::Geometry;
use std::alloc::Global;

fn decompress_in<E: Order>(alloc: Global, image: &[u8], block: u32) -> Result<Vec<u8>, Told>
    ensures ok { IfOk result (λ bytes. made.IsDecompressed E.order block image.now bytes.items) }
    ensures err { IfErr result (IsDueFault (made.DecompressRefused E.order block image.now)) }
{
    match jconvert::decompressed::<E>(alloc, image, Geometry { block }) {
        Ok(bytes) => Ok(bytes),
        Err(why) => Err(convert_told(why)),
    }
}

fn decompress_asked(alloc: Global, image: &[u8], how: How) -> Result<Vec<u8>, Told>
    ensures ok { IfOk result
        (λ bytes. made.IsDecompressed (asked_order how) how.block image.now bytes.items) }
    ensures err { IfErr result
        (IsDueFault (made.DecompressRefused (asked_order how) how.block image.now)) }
{
    if how.is_big() {
        decompress_in::<BigEndian>(alloc, image, how.block)
    } else {
        decompress_in::<LittleEndian>(alloc, image, how.block)
    }
}

fn compress_in<E: Order>(alloc: Global, image: &[u8], block: u32) -> Result<Vec<u8>, Told>
    ensures ok { IfOk result (λ bytes. made.IsCompressed E.order block image.now bytes.items) }
    ensures err { IfErr result (IsDueFault (made.CompressRefused E.order block image.now)) }
{
    let sink = FromWriter::new(Vec::new(alloc));
    match jconvert::compress::<E, FromWriter<Vec<u8>>>(alloc, image, Geometry { block }, sink) {
        Ok((sink, _)) => Ok(sink.into_writer()),
        Err((why, _)) => Err(convert_told(why)),
    }
}

fn compress_asked(alloc: Global, image: &[u8], how: How) -> Result<Vec<u8>, Told>
    ensures ok { IfOk result
        (λ bytes. made.IsCompressed (asked_order how) how.block image.now bytes.items) }
    ensures err { IfErr result
        (IsDueFault (made.CompressRefused (asked_order how) how.block image.now)) }
{
    if how.is_big() {
        compress_in::<BigEndian>(alloc, image, how.block)
    } else {
        compress_in::<LittleEndian>(alloc, image, how.block)
    }
}

/// The image of the same nodes, whose data are not compressed. Whether data are to be read through
/// is not asked here.
///
/// # Errors
/// 1 to 4, 7, 20 to 24: the image is not converted. 9: there is no room for the new one, and
/// `needed` says how many bytes it has. `out` is then as it was.
pub fn decompress(
    alloc: Global,
    image: &[u8],
    how: How,
    out: &mut [u8],
    needed: &mut usize,
    fault: &mut Fault,
) -> u32
    ensures done { result ≡ 0
        → GivesMade (made.IsDecompressed (asked_order how) how.block image.now)
        out.old out.new needed.new }
    ensures small { result ≡ 9
        → NeedsForMade (made.IsDecompressed (asked_order how) how.block image.now)
        out.old needed.new }
    ensures refused { result ≢ 0 → result ≢ 9
        → made.DecompressRefused (asked_order how) how.block image.now
        (told_by result fault.new) }
    ensures kept { result ≢ 0 → out.new ≡ out.old }
    ensures needed_kept { result ≢ 0 → result ≢ 9 → needed.new ≡ needed.old }
    ensures quiet { (result ≡ 0) ⊎ (result ≡ 9) → fault.new ≡ fault.old }
{
    match decompress_asked(alloc, image, how) {
        Ok(bytes) => give_all(&bytes, out, needed),
        Err(told) => tell(told, fault),
    }
}

/// An image of the same nodes, whose files are compressed by ZLIB where that makes them shorter.
///
/// # Errors
/// 1 to 4, 7, 21 to 24: the image is not compressed; 4 where a node of it is compressed already. 9:
/// there is no room for the new one, and `needed` says how many bytes it has. `out` is then as it
/// was.
pub fn compress(
    alloc: Global,
    image: &[u8],
    how: How,
    out: &mut [u8],
    needed: &mut usize,
    fault: &mut Fault,
) -> u32
    ensures done { result ≡ 0
        → GivesMade (made.IsCompressed (asked_order how) how.block image.now)
        out.old out.new needed.new }
    ensures small { result ≡ 9
        → NeedsForMade (made.IsCompressed (asked_order how) how.block image.now)
        out.old needed.new }
    ensures refused { result ≢ 0 → result ≢ 9
        → made.CompressRefused (asked_order how) how.block image.now
        (told_by result fault.new) }
    ensures kept { result ≢ 0 → out.new ≡ out.old }
    ensures needed_kept { result ≢ 0 → result ≢ 9 → needed.new ≡ needed.old }
    ensures quiet { (result ≡ 0) ⊎ (result ≡ 9) → fault.new ≡ fault.old }
{
    match compress_asked(alloc, image, how) {
        Ok(bytes) => give_all(&bytes, out, needed),
        Err(told) => tell(told, fault),
    }
}
