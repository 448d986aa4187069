//! A file or a stream of the system as a sink, behind a buffer that is emptied before it ends.
ghost use Rattle.std.specs.Prelude.{◌≡◌, ◌+◌, ◌-◌, ◌^◌, IfOk, IfErr, OnOk, min};
ghost use Rattle.std.specs.Io.KnownBytes.{Appends, Keeps};
ghost use Rattle.std.specs.IoError.{error_kind};
ghost use Rattle.std.specs.Io.Buffered.{writer_contents, writer_inner};
ghost use Rattle.flashbase.specs.Device.{CountsErr, PutsOnce, PutsPart};
ghost use Rattle.jsystem.specs.Outputs.{GoesOutInPart, IsBegunBy, bytes_taken, fill_bytes, output_given};
ghost use Rattle.jsystem.specs.Reasons.{sink_reason};

use flashbase::{DeviceFault, Sink};
use jlog::put_erased;
use jmakes::wanted::{Filling, fill_length};
use jreport::Reason;
use std::alloc::Global;
use std::io;
use std::io::{BufWriter, ErrorKind, Write};

/// Output goes out in pieces of this many bytes.
const BUFFER: usize = 65536;

/// A writer behind a buffer. A call that was interrupted, or that takes nothing of a nonempty
/// slice, is a failure.
#[derive(Drop)]
pub struct BufferedOutput<W: Write + Drop> {
    writer: BufWriter<W>,
    failures: u64,
    length: u64,
    reason: Reason,
}

/// Writes bytes by one call, and counts a failure: an error, also one that only interrupts, or
/// nothing taken of a nonempty slice. The reason of an error is noted.
fn write_noting<W: Write>(
    writer: &mut W,
    failures: &mut u64,
    reason: &mut Reason,
    bytes: &[u8],
) -> Result<usize, DeviceFault>
    ensures { PutsOnce (W.contents writer.old) (W.contents writer.new) failures.old failures.new
        bytes.now result }
{
    match writer.write(bytes) {
        Ok(n) => {
            if n == 0 && !bytes.is_empty() {
                *failures = failures.wrapping_add(1);
            }
            Ok(n)
        }
        Err(error) => {
            *reason = Reason::of(&error);
            *failures = failures.wrapping_add(1);
            Err(DeviceFault)
        }
    }
}

impl<W: Write + Drop> BufferedOutput<W> {
    /// An empty buffer before a writer, which is dropped if there is no memory for one.
    pub fn new(alloc: Global, writer: W) -> io::Result<Self>
        ensures none { IfOk result (λ output. bytes_taken output ≡ 0) }
        ensures given { IfOk result (λ output. output_given W.contents output ≡ W.contents writer) }
        ensures taken { IfOk result
            (λ output. Keeps (W.contents writer) (⟦<BufferedOutput<W> as Sink>⟧.taken output)) }
        ensures failures { IfOk result
            (λ output. ⟦<BufferedOutput<W> as Sink>⟧.failures output ≡ 0) }
        ensures memory { IfErr result (λ error. error_kind error ≡ ErrorKind.OutOfMemory) }
    {
        let writer = BufWriter::with_capacity(alloc, BUFFER, writer)?;
        Ok(BufferedOutput {
            writer,
            failures: 0,
            length: 0,
            reason: Reason::Other,
        })
    }

    /// What is behind the buffer.
    pub(crate) fn writer(&self) -> &W {
        self.writer.get_ref()
    }

    /// Fills it up with erased flash, unless it failed before.
    fn fill_up(&mut self, filling: Option<Filling>) -> Result<(), DeviceFault>
        ensures sound { OnOk result (⟦<BufferedOutput<W> as Sink>⟧.failures self.old ≡ 0) }
        ensures all { OnOk result (Appends (⟦<BufferedOutput<W> as Sink>⟧.taken self.old)
            (⟦<BufferedOutput<W> as Sink>⟧.taken self.new)
            (fill_bytes filling (bytes_taken self.old))) }
        ensures part { IfErr result (λ _. PutsPart (⟦<BufferedOutput<W> as Sink>⟧.taken self.old)
            (⟦<BufferedOutput<W> as Sink>⟧.taken self.new)
            (fill_bytes filling (bytes_taken self.old))) }
    {
        if self.failures != 0 {
            return Err(DeviceFault);
        }
        match filling {
            Some(to) => {
                let count = fill_length(to, self.length);
                match put_erased(self, count as usize) {
                    Ok(()) => Ok(()),
                    Err(_) => Err(DeviceFault),
                }
            }
            None => Ok(()),
        }
    }

    /// Gives on all that it took, or a beginning of it. A failure counts as one of the sink.
    fn empty(&mut self) -> Result<(), DeviceFault>
        ensures given { OnOk result (Keeps (⟦<BufferedOutput<W> as Sink>⟧.taken self.old)
            (output_given W.contents self.new)) }
        ensures part { IsBegunBy (output_given W.contents self.new)
            (⟦<BufferedOutput<W> as Sink>⟧.taken self.new) }
        ensures taken { Keeps (⟦<BufferedOutput<W> as Sink>⟧.taken self.old)
            (⟦<BufferedOutput<W> as Sink>⟧.taken self.new) }
        ensures count { CountsErr (⟦<BufferedOutput<W> as Sink>⟧.failures self.old)
            (⟦<BufferedOutput<W> as Sink>⟧.failures self.new) result }
    {
        match self.writer.flush() {
            Ok(()) => Ok(()),
            Err(error) => {
                self.reason = Reason::of(&error);
                self.failures = self.failures.wrapping_add(1);
                Err(DeviceFault)
            }
        }
    }

    /// Fills it up if that is asked for, and gives on all that it took. If that fails, or a put
    /// failed before, a beginning went out, and the reason is the last one.
    pub fn finish(&mut self, filling: Option<Filling>) -> Result<(), Reason>
        ensures sound { OnOk result (⟦<BufferedOutput<W> as Sink>⟧.failures self.old ≡ 0) }
        ensures all { OnOk result (Appends (⟦<BufferedOutput<W> as Sink>⟧.taken self.old)
            (output_given W.contents self.new) (fill_bytes filling (bytes_taken self.old))) }
        ensures part { IfErr result (λ _. GoesOutInPart
            (⟦<BufferedOutput<W> as Sink>⟧.taken self.old) (output_given W.contents self.new)
            (fill_bytes filling (bytes_taken self.old))) }
        ensures reason { IfErr result (λ reason. reason ≡ sink_reason self.new) }
    {
        let filled = self.fill_up(filling);
        let emptied = self.empty();
        match (filled, emptied) {
            (Ok(()), Ok(())) => Ok(()),
            _ => Err(self.reason),
        }
    }
}

impl<W: Write + Drop> Sink for BufferedOutput<W> {
    ghost taken = { λ s. writer_contents W.contents s.writer };

    ghost failures = { λ s. s.failures };

    fn put(&mut self, bytes: &[u8]) -> Result<usize, DeviceFault>
        ensures puts { PutsOnce (⟦<BufferedOutput<W> as Sink>⟧.taken self.old)
            (⟦<BufferedOutput<W> as Sink>⟧.taken self.new)
            (⟦<BufferedOutput<W> as Sink>⟧.failures self.old)
            (⟦<BufferedOutput<W> as Sink>⟧.failures self.new) bytes.now result }
        ensures counted { IfOk result
            (λ n. bytes_taken self.new ≡ min (bytes_taken self.old + n) (2 ^ 64 - 1)) }
        ensures uncounted { IfErr result (λ _. bytes_taken self.new ≡ bytes_taken self.old) }
    {
        let put = write_noting(
            &mut self.writer,
            &mut self.failures,
            &mut self.reason,
            bytes,
        );
        if let Ok(n) = put {
            self.length = self.length.saturating_add(n as u64);
        }
        put
    }
}
