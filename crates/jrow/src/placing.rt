//! An image with bytes in its row, put to a sink.

ghost use Rattle.std.specs.Prelude.{◌≡◌, ◌*◌, ◌<◌, ◌≤◌, ◌+◌, ◌-◌, ◌^◌, true, IfErr, length, take};
ghost use Rattle.std.specs.Io.KnownBytes.{Appends};
ghost use Rattle.flashbase.specs.Bytes.{erased};
ghost use Rattle.flashbase.specs.Sinks.{PutsTo};
ghost use Rattle.jscan.specs.Image.{is_block_size, greatest_image};
ghost use Rattle.jrow.specs.Row.{IsRowOf};
ghost use Rattle.jrow.specs.RowLeft.{block_with, with_row};
ghost use Rattle.jrow.specs.Written.{length_with};

use crate::row::{Row, block_part};
use flashbase::{Part, PutFault, Sink, put_all};
use jscan::Geometry;

/// A row, and the flash of so many blocks in which it lies.
#[derive(Drop)]
pub struct RowOnFlash<'a> {
    pub geometry: Geometry,
    pub blocks: u32,
    pub row: &'a Row,
}

/// Erased bytes go out in pieces of this many.
const PIECE: usize = 256;

/// Puts bytes behind `before` others. A fault counts those too.
pub fn put_behind<S: Sink>(sink: &mut S, before: usize, bytes: &[u8]) -> Result<(), PutFault>
    requires { before + length bytes.now < 2 ^ 64 }
    ensures puts { PutsTo S.Sink sink.old sink.new bytes.now result }
    ensures part { IfErr result (λ fault. (before ≤ fault.taken)
        × (fault.taken < before + length bytes.now)
        × Appends (S.Sink.taken sink.old) (S.Sink.taken sink.new)
        (take (fault.taken - before) bytes.now)) }
{
    match put_all(sink, bytes) {
        Ok(()) => Ok(()),
        Err(PutFault { taken }) => Err(PutFault {
            taken: before + taken,
        }),
    }
}

/// Puts erased bytes behind `before` others. A fault counts those too.
pub fn put_clear<S: Sink>(sink: &mut S, before: usize, count: usize) -> Result<(), PutFault>
    requires { before + count < 2 ^ 64 }
    ensures puts { PutsTo S.Sink sink.old sink.new (erased count) result }
    ensures part { IfErr result (λ fault. (before ≤ fault.taken) × (fault.taken < before + count)
        × Appends (S.Sink.taken sink.old) (S.Sink.taken sink.new)
        (erased (fault.taken - before))) }
{
    let piece = [0xFFu8; PIECE];
    let mut done = 0;
    while done < count {
        let n = (count - done).min(PIECE);
        put_behind(sink, before + done, &piece[..n])?;
        done += n;
    }
    Ok(())
}

/// Puts the first `len` bytes of a part behind `before` others. A fault counts those too.
pub fn put_part<S: Sink>(
    sink: &mut S,
    before: usize,
    part: &Part<'_>,
    len: usize,
) -> Result<(), PutFault>
    requires within { len ≤ length part.now }
    requires small { before + len < 2 ^ 64 }
    ensures puts { PutsTo S.Sink sink.old sink.new (take len part.now) result }
    ensures part { IfErr result (λ fault. (before ≤ fault.taken) × (fault.taken < before + len)
        × Appends (S.Sink.taken sink.old) (S.Sink.taken sink.new)
        (take (fault.taken - before) part.now)) }
{
    let present = part.present();
    let held = present.len().min(len);
    put_behind(sink, before, &present[..held])?;
    put_clear(sink, before + held, len - held)
}

/// A block of the flash as it is with these bytes in its row.
fn block_with<'a>(
    flash: &RowOnFlash<'_>,
    image: &'a [u8],
    written: &'a [u8],
    block: u32,
) -> Part<'a>
    requires readable { is_block_size flash.now.geometry.block ≡ true }
    requires small { flash.now.blocks * flash.now.geometry.block ≤ greatest_image }
    requires row { IsRowOf flash.now.blocks flash.now.row.now }
    requires within { block < flash.now.blocks }
    ensures { result ≡ block_with flash.now.geometry.block image.now flash.now.row.now written.now
        block }
{
    match flash.row.index_of(block) {
        Some(index) => block_part(written, flash.geometry, index as u32),
        None => block_part(image, flash.geometry, block),
    }
}

/// How long an image is with these bytes in its row.
pub fn written_len(flash: &RowOnFlash<'_>, image: &[u8], written: &[u8]) -> usize
    requires small { flash.now.blocks * flash.now.geometry.block ≤ greatest_image }
    requires row { IsRowOf flash.now.blocks flash.now.row.now }
    requires fits { length written.now ≤ length flash.now.row.now * flash.now.geometry.block }
    ensures { result ≡ length_with flash.now.geometry.block image.now flash.now.row.now
        written.now }
{
    if written.is_empty() {
        return image.len();
    }
    let last = (written.len() - 1) as u32;
    let end = flash.row.address_in(flash.geometry, flash.blocks, last) + 1;
    image.len().max(end as usize)
}

/// Puts the first `len` bytes of an image with these bytes in its row, block by block.
pub fn put_with_row<S: Sink>(
    sink: &mut S,
    flash: &RowOnFlash<'_>,
    image: &[u8],
    written: &[u8],
    len: usize,
) -> Result<(), PutFault>
    requires readable { is_block_size flash.now.geometry.block ≡ true }
    requires small { flash.now.blocks * flash.now.geometry.block ≤ greatest_image }
    requires row { IsRowOf flash.now.blocks flash.now.row.now }
    ensures puts { PutsTo S.Sink sink.old sink.new (take len (with_row flash.now.geometry.block
        flash.now.blocks image.now flash.now.row.now written.now)) result }

    // On a fault of the sink exactly the first `taken` bytes went out.
    ensures part { IfErr result (λ fault. (fault.taken < len)
        × Appends (S.Sink.taken sink.old) (S.Sink.taken sink.new)
        (take fault.taken (with_row flash.now.geometry.block flash.now.blocks image.now
        flash.now.row.now written.now))) }
{
    let size = flash.geometry.block as usize;
    let mut left = len;
    for block in 0..flash.blocks {
        let held = left.min(size);
        put_part(
            sink,
            len - left,
            &block_with(flash, image, written, block),
            held,
        )?;
        left -= held;
    }
    Ok(())
}
