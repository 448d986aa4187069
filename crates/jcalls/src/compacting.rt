//! Images of the nodes that matter.

ghost use Rattle.std.specs.Prelude.{◌≡◌, ◌≢◌, ◌⊎◌, IfOk, IfErr};
ghost use Rattle.jcalls.specs.Asked.{asked_order};
ghost use Rattle.jcalls.specs.Compacting.{CompactRefused, IsCompacted};
ghost use Rattle.jcalls.specs.Made.{GivesMade, NeedsForMade};
ghost use Rattle.jcalls.specs.Shown.{IsDueFault};
ghost use Rattle.jcalls.specs.Told.{told_by};

use crate::giving::give_all;
use crate::how::How;
use crate::told::{Fault, Told, tell, through_told};
use byteorder::{BigEndian, LittleEndian};
use flashbase::FromWriter;
use jcollect::compact_through;
use jnode::Order;
use jscan::Geometry;
use std::alloc::Global;

fn compact_in<E: Order>(
    alloc: Global,
    image: &[u8],
    block: u32,
    blocks: u32,
) -> Result<Vec<u8>, Told>
    ensures ok { IfOk result
        (λ bytes. IsCompacted E.order block blocks image.now bytes.items) }
    ensures err { IfErr result (IsDueFault (CompactRefused E.order block blocks image.now)) }
{
    let mut sink = FromWriter::new(Vec::new(alloc));
    match compact_through::<E, FromWriter<Vec<u8>>>(
        alloc,
        image,
        Geometry { block },
        blocks,
        &mut sink,
    ) {
        Ok(_) => Ok(sink.into_writer()),
        Err(why) => Err(through_told(why)),
    }
}

fn compact_asked(alloc: Global, image: &[u8], how: How, blocks: u32) -> Result<Vec<u8>, Told>
    ensures ok { IfOk result
        (λ bytes. IsCompacted (asked_order how) how.block blocks image.now bytes.items) }
    ensures err { IfErr result
        (IsDueFault (CompactRefused (asked_order how) how.block blocks image.now)) }
{
    if how.is_big() {
        compact_in::<BigEndian>(alloc, image, how.block, blocks)
    } else {
        compact_in::<LittleEndian>(alloc, image, how.block, blocks)
    }
}

/// The image of the nodes alone that matter, on an erased flash of so many blocks, each with the
/// bytes that it has: it shows the same tree, and has no findings. Compressed data are read through
/// to find these nodes, and stay as they are, whatever is asked.
///
/// # Errors
/// 1 to 7, 20, 21: the image does not mount. 21 to 24: its nodes are not written; at 24 so many
/// blocks have no room for them. 9: there is no room for the image, and `needed` says how many
/// bytes it has. `out` is then as it was.
pub fn compact(
    alloc: Global,
    image: &[u8],
    how: How,
    blocks: u32,
    out: &mut [u8],
    needed: &mut usize,
    fault: &mut Fault,
) -> u32
    ensures done { result ≡ 0
        → GivesMade (IsCompacted (asked_order how) how.block blocks image.now)
        out.old out.new needed.new }
    ensures small { result ≡ 9
        → NeedsForMade (IsCompacted (asked_order how) how.block blocks image.now)
        out.old needed.new }
    ensures refused { result ≢ 0 → result ≢ 9
        → CompactRefused (asked_order how) how.block blocks image.now
        (told_by result fault.new) }
    ensures kept { result ≢ 0 → out.new ≡ out.old }
    ensures needed_kept { result ≢ 0 → result ≢ 9 → needed.new ≡ needed.old }
    ensures quiet { (result ≡ 0) ⊎ (result ≡ 9) → fault.new ≡ fault.old }
{
    match compact_asked(alloc, image, how, blocks) {
        Ok(bytes) => give_all(&bytes, out, needed),
        Err(told) => tell(told, fault),
    }
}
