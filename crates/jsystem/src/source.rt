//! A file of the system as a source of bytes.
ghost use Rattle.std.specs.Prelude.{◌≡◌};
ghost use Rattle.jsystem.specs.Reasons.{source_reason};

use flashbase::{DeviceFault, Source};
use jreport::Reason;
use jspare::RegionSource;
use std::fs::File;
use std::io::Read;

/// A source over a reader, which notes why it failed. A call that was interrupted is a failure.
#[derive(Drop)]
pub struct FileSource<R: Read + Drop> {
    reader: R,
    failures: u64,
    reason: Reason,
}

impl<R: Read + Drop> FileSource<R> {
    pub fn new(reader: R) -> Self
        ensures rest { ⟦<FileSource<R> as Source>⟧.rest result ≡ R.remaining reader }
        ensures failures { ⟦<FileSource<R> as Source>⟧.failures result ≡ 0 }
        ensures reason { source_reason result ≡ Reason.Other }
    {
        FileSource {
            reader,
            failures: 0,
            reason: Reason::Other,
        }
    }

    /// How often it failed, modulo 2^64.
    pub fn failures(&self) -> u64
        ensures { result ≡ ⟦<FileSource<R> as Source>⟧.failures self.now }
    {
        self.failures
    }

    /// Why it failed last; `Other` if it did not.
    pub fn reason(&self) -> Reason
        ensures { result ≡ source_reason self.now }
    {
        self.reason
    }
}

impl<R: Read + Drop> Source for FileSource<R> {
    ghost rest = { λ s. R.remaining s.reader };

    ghost failures = { λ s. s.failures };

    fn fill(&mut self, buf: &mut [u8]) -> Result<usize, DeviceFault> {
        match self.reader.read(buf) {
            Ok(n) => Ok(n),
            Err(error) => {
                self.reason = Reason::of(&error);
                self.failures = self.failures.wrapping_add(1);
                Err(DeviceFault)
            }
        }
    }
}

/// Why a part of a file of the system was not read.
pub(crate) fn reason_of(source: &RegionSource<FileSource<File>>) -> Reason {
    if source.ends_early() {
        Reason::EndsEarly
    } else {
        source.source().reason()
    }
}
