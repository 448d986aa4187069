//! The blocks of a source, one after the other, through a buffer of one block.

ghost use Rattle.std.specs.Prelude.{◌≡◌, ◌-◌, ◌<◌, ◌≤◌, ◌++◌, Err, IfOk, IfErr, OnOk, false, true, length, replicate, take, vec_len};
ghost use Rattle.std.specs.Option.{ForSome};
ghost use Rattle.std.specs.Io.KnownBytes.{Consumes, IsAtEnd};
ghost use Rattle.jscan.specs.Image.{greatest_image};
ghost use Rattle.jscan.specs.Filling.{Breaks, StopsWithin, StopsPast};
ghost use Rattle.jscan.specs.declared.stream.StreamFault.TheVariants as fault;

use crate::geometry::{GREATEST_IMAGE, Geometry};
use flashbase::{DeviceFault, Source};
use std::alloc::{AllocError, Global};
use thiserror::Error;

/// Why a source is not read on.
#[derive(Clone, Copy, Debug, PartialEq, Eq, Error)]
pub enum StreamFault {
    /// The block size is not read.
    #[error("C1 BlockSize")]
    BlockSize,
    /// The device failed.
    #[error("L1 Device")]
    Device,
    /// The next block holds a byte of the source past `GREATEST_IMAGE`.
    #[error("L2 TooLarge")]
    TooLarge,
    #[error("L3 OutOfMemory")]
    OutOfMemory,
}

impl From<DeviceFault> for StreamFault {
    ghost from_gives = { λ _ e. e ≡ fault.Device };

    fn from(_fault: DeviceFault) -> StreamFault {
        StreamFault::Device
    }
}

impl From<AllocError> for StreamFault {
    ghost from_gives = { λ _ e. e ≡ fault.OutOfMemory };

    fn from(_error: AllocError) -> StreamFault {
        StreamFault::OutOfMemory
    }
}

/// The blocks of a source in order, however it cuts its bytes. The last one is filled with 0xFF.
#[derive(Drop)]
pub struct BlockReader<S: Source> {
    source: S,
    buffer: Vec<u8>,
    /// Where the next block begins, in bytes from the start of the source.
    start: usize,
    has_ended: bool,
    fault: Option<StreamFault>,
    ghost some: { 0 < vec_len buffer },
    ghost small: { vec_len buffer ≤ 4194304 },
    ghost within: { has_ended ≡ false → start ≤ greatest_image },
    ghost at_end: { ForSome (S.rest source) (λ bytes. has_ended ≡ true → length bytes ≡ 0) },
}

impl<S: Source> BlockReader<S> {
    ghost use Rattle.std.specs.Prelude.{◌≡◌, ◌≢◌, ◌↔◌, Err, IfOk, None, OnOk, false, true};
    ghost use Rattle.std.specs.Borrow.{sem};
    ghost use Rattle.std.specs.Io.BufRead.{Rests};
    ghost use Rattle.jscan.specs.Image.{is_block_size};
    ghost use Rattle.jscan.specs.Stream.{size_of, start_of, source_of, has_ended, fault_of, Steps, Gives};
    ghost use Rattle.jscan.specs.contracts.stream.BlockReader.{the_row};

    /// A reader of the source's blocks. It takes the memory of one block, and no more later.
    pub fn new(alloc: Global, source: S, geometry: Geometry) -> Result<Self, StreamFault>
        ensures size { IfOk result (λ reader. size_of reader ≡ geometry.block) }
        ensures start { IfOk result (λ reader. start_of reader ≡ 0) }
        ensures source { IfOk result (λ reader. source_of reader ≡ source) }
        ensures reading { IfOk result
            (λ reader. (fault_of reader ≡ None) × (has_ended reader ≡ false)) }
        ensures readable { OnOk result (is_block_size geometry.block ≡ true) }
        ensures block_size { result ≡ Err StreamFault.BlockSize
            ↔ (is_block_size geometry.block ≡ false) }
        ensures no_other { (result ≢ Err StreamFault.Device) × (result ≢ Err StreamFault.TooLarge) }
    {
        if !geometry.is_readable() {
            return Err(StreamFault::BlockSize);
        }
        Ok(BlockReader {
            source,
            buffer: vec![in alloc; 0xFFu8; geometry.block as usize]?,
            start: 0,
            has_ended: false,
            fault: None,
        })
    }

    /// The next block, or None after the last. Once it has answered a fault it answers that fault
    /// again, and then, as after None, reads nothing.
    pub fn next(&mut self) -> Result<Option<&[u8]>, StreamFault>
        ensures* after { sem 𝓛 (Rests (the_row S.row S.Source) self.entry (λ new. Gives self.old new result)) }
    {
        if self.advance()? {
            Ok(Some(self.buffer.as_slice()))
        } else {
            Ok(None)
        }
    }

    /// The source, after what was read.
    pub fn into_source(self) -> S
        ensures { result ≡ source_of self }
    {
        self.source
    }

    /// Reads the next block into the buffer, and answers whether there is one.
    fn advance(&mut self) -> Result<bool, StreamFault>
        ensures { Steps self.old self.new result }
    {
        if let Some(fault) = self.fault {
            return Err(fault);
        }
        if self.has_ended {
            return Ok(false);
        }
        match fill_block(
            &mut self.source,
            &mut self.buffer,
            GREATEST_IMAGE - self.start,
        ) {
            Ok(filled) => {
                self.has_ended = filled < self.buffer.len();
                if filled == 0 {
                    return Ok(false);
                }
                self.start += self.buffer.len();
                Ok(true)
            }
            Err(fault) => {
                self.fault = Some(fault);
                Err(fault)
            }
        }
    }
}

/// Fills the block from the source, with 0xFF where the source ends, and answers how many bytes the
/// source gave.
fn fill_block<S: Source>(
    source: &mut S,
    block: &mut [u8],
    room: usize,
) -> Result<usize, StreamFault>
    ensures whole { length block.new ≡ length block.old }
    ensures within { IfOk result (λ n. (n ≤ length block.new) × (n ≤ room)) }
    ensures bytes { IfOk result
        (λ n. Consumes (S.rest source.old) (S.rest source.new) (take n block.new)) }
    ensures end { IfOk result (λ n. n < length block.new → IsAtEnd (S.rest source.new)) }
    ensures filled { IfOk result
        (λ n. block.new ≡ take n block.new ++ replicate (length block.new - n) 0xFF) }
    ensures none_failed { OnOk result (S.failures source.new ≡ S.failures source.old) }
    ensures torn { result ≡ Err StreamFault.Device
        → StopsWithin (S.rest source.old) (S.rest source.new) (length block.old) }
    ensures passed { result ≡ Err StreamFault.TooLarge
        → StopsPast (S.rest source.old) (S.rest source.new) room (length block.old) }
    ensures fault { IfErr result (λ e. Breaks (S.rest source.old) (S.failures source.old)
        (S.failures source.new) (length block.old) room e) }
{
    let mut filled = 0;
    while filled < block.len() {
        let n = source.fill(&mut block[filled..])?;
        if n == 0 {
            break;
        }
        if room - filled < n {
            return Err(StreamFault::TooLarge);
        }
        filled += n;
    }
    block[filled..].fill(0xFF);
    Ok(filled)
}
