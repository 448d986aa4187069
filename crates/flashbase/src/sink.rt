//! Sinks for bytes, and putting all of a slice.

ghost use Rattle.std.specs.Prelude.{◌≡◌, ◌+◌, ◌<◌, ◌≤◌, ℕ, List, Option, IfErr, length, take};
ghost use Rattle.std.specs.Io.KnownBytes.{Appends};
ghost use Rattle.flashbase.specs.Device.{Puts, PutsOnce};

use crate::source::DeviceFault;
use std::io::Write;
use thiserror::Error;

/// A device that takes bytes, in pieces of its own size.
pub trait Sink: Drop {
    /// The bytes that it took, where it reports them.
    ghost taken: { Self → Option (List ℕ) };

    /// How often it failed, modulo 2^64.
    ghost failures: { Self → ℕ };

    /// Takes a beginning of the slice and answers its length. For a nonempty slice 0 is a failure,
    /// as an Err is.
    fn put(&mut self, bytes: &[u8]) -> Result<usize, DeviceFault>
        ensures { PutsOnce (taken self.old) (taken self.new) (failures self.old) (failures self.new)
            bytes.now result };
}

/// Writes bytes by one call, and counts a failure: an error, also one that only interrupts, or
/// nothing taken of a nonempty slice.
fn write_once<W: Write>(
    writer: &mut W,
    failures: &mut u64,
    bytes: &[u8],
) -> Result<usize, DeviceFault>
    ensures { PutsOnce (W.contents writer.old) (W.contents writer.new) failures.old failures.new
        bytes.now result }
{
    match writer.write(bytes) {
        Ok(n) => {
            if n == 0 && !bytes.is_empty() {
                *failures = failures.wrapping_add(1);
            }
            Ok(n)
        }
        Err(_) => {
            *failures = failures.wrapping_add(1);
            Err(DeviceFault)
        }
    }
}

/// A sink over a writer. A call that was interrupted, or that takes nothing of a nonempty slice, is
/// a failure.
#[derive(Drop)]
pub struct FromWriter<W: Write + Drop> {
    writer: W,
    failures: u64,
}

impl<W: Write + Drop> FromWriter<W> {
    pub fn new(writer: W) -> Self
        ensures taken { ⟦<FromWriter<W> as Sink>⟧.taken result ≡ W.contents writer }
        ensures failures { ⟦<FromWriter<W> as Sink>⟧.failures result ≡ 0 }
    {
        FromWriter {
            writer,
            failures: 0,
        }
    }

    /// The writer, with what it took.
    pub fn into_writer(self) -> W
        ensures { W.contents result ≡ ⟦<FromWriter<W> as Sink>⟧.taken self }
    {
        self.writer
    }
}

impl<W: Write + Drop> Sink for FromWriter<W> {
    ghost taken = { λ s. W.contents s.writer };

    ghost failures = { λ s. s.failures };

    fn put(&mut self, bytes: &[u8]) -> Result<usize, DeviceFault> {
        write_once(&mut self.writer, &mut self.failures, bytes)
    }
}

/// A sink failed before it took all bytes of a slice: it took exactly the first `taken`.
#[derive(Clone, Copy, Debug, PartialEq, Eq, Error)]
#[error("the sink failed after {taken} bytes")]
pub struct PutFault {
    pub taken: usize,
}

/// Puts the whole slice. An empty slice is put without a call of the sink.
pub fn put_all<S: Sink>(sink: &mut S, bytes: &[u8]) -> Result<(), PutFault>
    ensures puts { Puts (S.taken sink.old) (S.taken sink.new) (S.failures sink.old)
        (S.failures sink.new) bytes.now result }
    ensures part { IfErr result (λ fault. (fault.taken < length bytes.now)
        × Appends (S.taken sink.old) (S.taken sink.new) (take fault.taken bytes.now)) }
{
    let mut taken = 0;
    while taken < bytes.len() {
        let n = match sink.put(&bytes[taken..]) {
            Ok(n) => n,
            Err(DeviceFault) => return Err(PutFault { taken }),
        };
        if n == 0 {
            return Err(PutFault { taken });
        }
        taken += n;
    }
    Ok(())
}
