//! An image with bytes in its openings, put to a sink.

ghost use Rattle.std.specs.Prelude.{◌≡◌, ℕ, ◌*◌, ◌<◌, ◌≤◌, ◌+◌, ◌-◌, ◌^◌, ◌++◌, true, IfErr, length, take};
ghost use Rattle.std.specs.Io.KnownBytes.{Appends};
ghost use Rattle.flashbase.specs.Sinks.{PutsTo};
ghost use Rattle.jscan.specs.Image.{is_block_size, greatest_image};
ghost use Rattle.jopenings.specs.Stretches.{AreStretches, block_behind, block_in, flash_with, end_in, length_after};

use flashbase::{Part, PutFault, Sink};
use jrow::{block_part, put_part};
use jscan::Geometry;

/// So many bytes went out to an opening.
#[derive(Clone, Copy, Debug, PartialEq, Eq)]
pub struct Stretch {
    /// The number of the block.
    pub block: u32,
    /// Bytes of the block in front of them.
    pub place: u32,
    /// How many bytes they are.
    pub len: u32,
}

/// Stretches upwards, one a block, and the flash of so many blocks in which they lie.
#[derive(Drop)]
pub struct StretchesOnFlash<'a> {
    pub geometry: Geometry,
    pub blocks: u32,
    pub stretches: &'a [Stretch],
}

/// A block: what lies in front of the bytes that went out to it, and what from there on.
#[derive(Drop)]
pub(crate) struct Halves<'a> {
    pub front: Part<'a>,
    pub behind: Part<'a>,
}

/// Puts the first `len` bytes of a block behind `before` others. A fault counts those too.
fn put_halves<S: Sink>(
    sink: &mut S,
    before: usize,
    block: &Halves<'_>,
    len: usize,
) -> Result<(), PutFault>
    requires within { len ≤ length (block.now.front ++ block.now.behind) }
    requires small { before + len < 2 ^ 64 }
    ensures puts { PutsTo S.Sink sink.old sink.new (take len (block.now.front ++ block.now.behind))
        result }
    ensures part { IfErr result (λ fault. (before ≤ fault.taken) × (fault.taken < before + len)
        × Appends (S.Sink.taken sink.old) (S.Sink.taken sink.new)
        (take (fault.taken - before) (block.now.front ++ block.now.behind))) }
{
    let held = block.front.len().min(len);
    put_part(sink, before, &block.front, held)?;
    put_part(sink, before + held, &block.behind, len - held)
}

/// The block of a stretch, with what went out to it.
fn halves_of<'a>(
    geometry: Geometry,
    image: &'a [u8],
    stretch: Stretch,
    bytes: &'a [u8],
) -> Halves<'a>
    requires readable { is_block_size geometry.block ≡ true }
    requires small { stretch.block * geometry.block < greatest_image }
    requires within { stretch.place + length bytes.now ≤ geometry.block }
    ensures { result.front ++ result.behind
        ≡ block_behind geometry.block image.now stretch bytes.now }
{
    let rest = geometry.block as usize - stretch.place as usize;
    Halves {
        front: block_part(image, geometry, stretch.block).slice(0, stretch.place as usize),
        behind: Part::new(bytes, rest - bytes.len()),
    }
}

/// Stretches, and what went out to them.
#[derive(Clone, Copy)]
pub(crate) struct Written<'a> {
    pub stretches: &'a [Stretch],
    pub bytes: &'a [u8],
}

/// A block, and what is left for those behind it.
#[derive(Drop)]
pub(crate) struct Step<'a> {
    pub block: Halves<'a>,
    pub later: Written<'a>,
}

/// A block of the flash, and what is left for those behind it. The stretches of those in front of
/// it are passed.
pub(crate) fn step_to<'a>(
    flash: &StretchesOnFlash<'_>,
    image: &'a [u8],
    written: &Written<'a>,
    block: u32,
) -> Step<'a>
    requires readable { is_block_size flash.now.geometry.block ≡ true }
    requires small { flash.now.blocks * flash.now.geometry.block ≤ greatest_image }
    requires within { block < flash.now.blocks }
    requires stretches { AreStretches flash.now.geometry.block block flash.now.blocks
        written.now.stretches.now }
    ensures block { result.block.front ++ result.block.behind ≡ block_in
        flash.now.geometry.block image.now written.now.stretches.now written.now.bytes.now block }
    ensures later { (b : ℕ) → block < b → block_in flash.now.geometry.block image.now
        result.later.stretches.now result.later.bytes.now b ≡ block_in flash.now.geometry.block
        image.now written.now.stretches.now written.now.bytes.now b }
    ensures stretches { AreStretches flash.now.geometry.block (block + 1) flash.now.blocks
        result.later.stretches.now }
{
    match written.stretches.split_first() {
        Some((first, others)) if first.block == block => {
            let count = written.bytes.len().min(first.len as usize);
            let (bytes, rest) = written.bytes.split_at(count);
            Step {
                block: halves_of(flash.geometry, image, *first, bytes),
                later: Written {
                    stretches: others,
                    bytes: rest,
                },
            }
        }
        _ => Step {
            block: Halves {
                front: block_part(image, flash.geometry, block),
                behind: Part::new(&[], 0),
            },
            later: *written,
        },
    }
}

/// Where on the flash the last of so many bytes of a stretch ends, and 0 where there are none.
fn end_in(geometry: Geometry, stretch: &Stretch, count: usize) -> usize
    requires { stretch.now.block * geometry.block + stretch.now.place + count < 2 ^ 64 }
    ensures { result ≡ end_in geometry.block stretch.now count }
{
    if count == 0 {
        return 0;
    }
    stretch.block as usize * geometry.block as usize + stretch.place as usize + count
}

/// How many bytes an image has with these in its openings: as many as it had, or up to the last of
/// these.
pub fn len_with_stretches(flash: &StretchesOnFlash<'_>, image: &[u8], bytes: &[u8]) -> usize
    requires small { flash.now.blocks * flash.now.geometry.block ≤ greatest_image }
    requires stretches { AreStretches flash.now.geometry.block 0 flash.now.blocks
        flash.now.stretches.now }
    ensures { result ≡ length_after flash.now.geometry.block image.now flash.now.stretches.now
        bytes.now }
{
    let mut len = image.len();
    let mut left = bytes.len();
    for stretch in flash.stretches {
        let held = left.min(stretch.len as usize);
        len = len.max(end_in(flash.geometry, stretch, held));
        left -= held;
    }
    len
}

/// Puts the first `len` bytes of the flash of an image after these bytes went out to its stretches,
/// one after the other. It is put block by block, in time linear in all of these.
pub fn put_with_stretches<S: Sink>(
    sink: &mut S,
    flash: &StretchesOnFlash<'_>,
    image: &[u8],
    bytes: &[u8],
    len: usize,
) -> Result<(), PutFault>
    requires readable { is_block_size flash.now.geometry.block ≡ true }
    requires small { flash.now.blocks * flash.now.geometry.block ≤ greatest_image }
    requires stretches { AreStretches flash.now.geometry.block 0 flash.now.blocks
        flash.now.stretches.now }
    ensures puts { PutsTo S.Sink sink.old sink.new (take len (flash_with flash.now.geometry.block
        flash.now.blocks image.now flash.now.stretches.now bytes.now)) result }

    // On a fault of the sink exactly the first `taken` bytes went out.
    ensures part { IfErr result (λ fault. (fault.taken < len)
        × Appends (S.Sink.taken sink.old) (S.Sink.taken sink.new)
        (take fault.taken (flash_with flash.now.geometry.block flash.now.blocks image.now
        flash.now.stretches.now bytes.now))) }
{
    let size = flash.geometry.block as usize;
    let mut left = len;
    let mut written = Written {
        stretches: flash.stretches,
        bytes,
    };
    for block in 0..flash.blocks {
        let held = left.min(size);
        let step = step_to(flash, image, &written, block);
        put_halves(sink, len - left, &step.block, held)?;
        written = step.later;
        left -= held;
    }
    Ok(())
}
