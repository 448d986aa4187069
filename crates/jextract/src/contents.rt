//! The bytes of a file, and its holes.

ghost use Rattle.std.specs.Prelude.{◌≡◌, ◌≤◌, ◌<◌, ◌+◌, ◌-◌, ◌*◌, ◌^◌, ℕ, length, slice_index};
ghost use Rattle.jmount.specs.Shown.{readable};
ghost use Rattle.jextract.specs.Cells.{AddsCells, Fails, cells_of, is_zero, skipped};
ghost use Rattle.jextract.specs.Filling.{PutsBlock};

use crate::folder::{FilledFile, FolderFault};
use jmount::Mounted;

/// A block of a file of the host, as most file systems give room to one.
const BLOCK: usize = 4096;

/// Whether all bytes of a block are zero. Their sum is faster to take than a look at each.
fn is_zero(block: &[u8]) -> bool
    requires { length block.now ≤ 4096 }
    ensures { result ≡ is_zero block.now }
{
    let mut total = 0u32;
    for byte in block {
        total += u32::from(*byte);
    }
    total == 0
}

/// Leaves a hole, where there is one.
fn put_hole<W: FilledFile>(file: &mut W, hole: u64) -> Result<(), FolderFault>
    ensures adds { AddsCells (W.cells file.old) (W.cells file.new) (skipped hole) result }
    ensures fails { Fails (W.fault file.old) (W.fault file.new) result }
{
    if hole == 0 {
        return Ok(());
    }
    file.skip(hole)
}

/// Writes a block after a hole, or makes the hole longer by a block of zeros. Answers how long the
/// hole is that is not left yet.
fn put_block<W: FilledFile>(file: &mut W, hole: u64, block: &[u8]) -> Result<u64, FolderFault>
    requires room { hole + length block.now < 2 ^ 64 }
    requires block { length block.now ≤ 4096 }
    ensures adds { PutsBlock (W.cells file.old) (W.cells file.new) hole block.now result }
    ensures fails { Fails (W.fault file.old) (W.fault file.new) result }
{
    if is_zero(block) {
        return Ok(hole + block.len() as u64);
    }
    put_hole(file, hole)?;
    file.write(block)?;
    Ok(0)
}

/// How many blocks so many bytes have.
fn blocks_of(size: u32) -> u64
    ensures all { size ≤ 4096 * result }
    ensures least { 4096 * result < size + 4096 }
{
    u64::from(size).div_ceil(4096)
}

/// How many whole blocks, from the one of this number on, have nothing but zeros that no node has.
fn blank_blocks(mounted: &Mounted<'_>, ino: u32, index: u64) -> u64
    requires { index < 2 ^ 32 }
    ensures zeros { (i : ℕ) → 4096 * index ≤ i → i < 4096 * (index + result)
        → slice_index (readable mounted.now.state ino) i ≡ 0 }
    ensures within { 0 < result
        → 4096 * (index + result) ≤ length (readable mounted.now.state ino) }
{
    let offset = index * 4096;
    (mounted.hole_end(ino, offset) - offset) / 4096
}

/// Puts the bytes of an object of so many bytes, and a hole for each block of zeros. What no node
/// has is passed over, not read.
pub(crate) fn put_contents<W: FilledFile>(
    mounted: &Mounted<'_>,
    ino: u32,
    size: u32,
    file: &mut W,
) -> Result<(), FolderFault>
    requires { length (readable mounted.now.state ino) ≡ size }
    ensures adds { AddsCells (W.cells file.old) (W.cells file.new)
        (cells_of (readable mounted.now.state ino)) result }
    ensures fails { Fails (W.fault file.old) (W.fault file.new) result }
{
    let mut block = [0u8; BLOCK];
    let mut hole = 0u64;
    let blocks = blocks_of(size);
    let mut index = 0u64;
    while index < blocks {
        let blank = blank_blocks(mounted, ino, index);
        if blank > 0 {
            hole += blank * 4096;
            index += blank;
            continue;
        }
        let count = mounted.read_at(ino, index * 4096, &mut block);
        hole = put_block(file, hole, &block[..count])?;
        index += 1;
    }
    put_hole(file, hole)
}
