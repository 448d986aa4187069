//! Sources of bytes, and loading one to its end.

ghost use Rattle.std.specs.Prelude.{◌≡◌, ◌<◌, ◌≤◌, ℕ, List, Option, Err, IfOk, IfSome, OnOk, length, vec_len};
ghost use Rattle.std.specs.Io.KnownBytes.{ReadConsumes, IsAtEnd};
ghost use Rattle.flashbase.specs.Device.{CountsErr, CountsLoad};
ghost use Rattle.flashbase.specs.declared.source.LoadFault.TheVariants as fault;

use std::alloc::{AllocError, Global};
use std::io::Read;
use thiserror::Error;

/// How many bytes `load` asks a source for at once.
const PIECE: usize = 65_536;

/// A device failed. What it says of the failure is not stored.
#[derive(Clone, Copy, Debug, PartialEq, Eq, Error)]
#[error("the device failed")]
pub struct DeviceFault;

/// A device that gives bytes, in pieces of its own size.
pub trait Source: Drop {
    /// The bytes that are left, where the device reports them.
    ghost rest: { Self → Option (List ℕ) };

    /// How often it failed, modulo 2^64.
    ghost failures: { Self → ℕ };

    /// Fills a beginning of the slice and answers its length. For a nonempty slice 0 means the end.
    fn fill(&mut self, buf: &mut [u8]) -> Result<usize, DeviceFault>
        ensures within { IfOk result (λ n. n ≤ length buf.old) }
        ensures bytes { ReadConsumes (rest self.old) (rest self.new) result buf.new }
        ensures count { CountsErr (failures self.old) (failures self.new) result };
}

/// A source over a reader. A call that was interrupted is a failure.
#[derive(Drop)]
pub struct FromReader<R: Read + Drop> {
    reader: R,
    failures: u64,
}

impl<R: Read + Drop> FromReader<R> {
    pub fn new(reader: R) -> Self
        ensures rest { ⟦<FromReader<R> as Source>⟧.rest result ≡ R.remaining reader }
        ensures failures { ⟦<FromReader<R> as Source>⟧.failures result ≡ 0 }
    {
        FromReader::counting_from(reader, 0)
    }

    /// The same, which goes on with a count of failures.
    pub fn counting_from(reader: R, failures: u64) -> Self
        ensures rest { ⟦<FromReader<R> as Source>⟧.rest result ≡ R.remaining reader }
        ensures failures { ⟦<FromReader<R> as Source>⟧.failures result ≡ failures }
    {
        FromReader { reader, failures }
    }

    /// How often it failed, modulo 2^64.
    pub fn failures(&self) -> u64
        ensures { result ≡ ⟦<FromReader<R> as Source>⟧.failures self.now }
    {
        self.failures
    }

    /// The reader, after what was read.
    pub fn into_reader(self) -> R
        ensures { R.remaining result ≡ ⟦<FromReader<R> as Source>⟧.rest self }
    {
        self.reader
    }
}

impl<R: Read + Drop> Source for FromReader<R> {
    ghost rest = { λ s. R.remaining s.reader };

    ghost failures = { λ s. s.failures };

    fn fill(&mut self, buf: &mut [u8]) -> Result<usize, DeviceFault> {
        match self.reader.read(buf) {
            Ok(n) => Ok(n),
            Err(_) => {
                self.failures = self.failures.wrapping_add(1);
                Err(DeviceFault)
            }
        }
    }
}

/// Why a source was not loaded.
#[derive(Clone, Copy, Debug, PartialEq, Eq, Error)]
pub enum LoadFault {
    #[error("L1 Device")]
    Device,
    #[error("L2 TooLarge")]
    TooLarge,
    #[error("L3 OutOfMemory")]
    OutOfMemory,
}

impl From<DeviceFault> for LoadFault {
    ghost from_gives = { λ _ e. e ≡ fault.Device };

    fn from(_fault: DeviceFault) -> LoadFault {
        LoadFault::Device
    }
}

impl From<AllocError> for LoadFault {
    ghost from_gives = { λ _ e. e ≡ fault.OutOfMemory };

    fn from(_error: AllocError) -> LoadFault {
        LoadFault::OutOfMemory
    }
}

/// Reads all that the source has left, if it is at most `limit` bytes.
pub fn load<S: Source>(alloc: Global, source: &mut S, limit: usize) -> Result<Vec<u8>, LoadFault>
    ensures whole { IfOk result (λ v. IfSome (S.rest source.old) (λ bytes. v.items ≡ bytes)) }
    ensures end { OnOk result (IsAtEnd (S.rest source.new)) }
    ensures within { IfOk result (λ v. vec_len v ≤ limit) }

    // It is refused as too large only where it is.
    ensures too_large { result ≡ Err LoadFault.TooLarge
        → IfSome (S.rest source.old) (λ bytes. limit < length bytes) }

    // The device is blamed exactly where it failed in this call.
    ensures count { CountsLoad (S.failures source.old) (S.failures source.new) result }
{
    let mut piece = zeros(alloc, PIECE)?;
    let mut bytes = Vec::new(alloc);
    loop {
        let n = source.fill(&mut piece)?;
        if n == 0 {
            return Ok(bytes);
        }
        if limit - bytes.len() < n {
            return Err(LoadFault::TooLarge);
        }
        bytes.extend_from_slice(&piece[..n])?;
    }
}

fn zeros(alloc: Global, n: usize) -> Result<Vec<u8>, AllocError>
    ensures { IfOk result (λ v. vec_len v ≡ n) }
{
    vec![in alloc; 0u8; n]
}
