//! A file of the system that is filled, holes among its bytes.

ghost use Rattle.std.specs.Option.{option_map};
ghost use Rattle.std.specs.Prelude.{◌≡◌, None};
ghost use Rattle.jextract.specs.Cells.{Fails};
ghost use Rattle.jhost.specs.FilledFaults.{filling_fault};
ghost use Rattle.jhost.specs.FilledFolders.{file_kind};

use jextract::{FilledFile, FolderFault};
use std::fs::OpenFile;
use std::io;
use std::io::{ErrorKind, Seek, SeekFrom, Write};

/// A file of the system that is filled. A hole is a place that the system's own position passes
/// over.
#[derive(Drop)]
pub struct HostFile<F: Write + Seek + OpenFile + Drop> {
    file: F,
    /// How many places it has.
    length: u64,
    /// Whether the last of them are in a hole. The system does not know of these yet.
    ends_in_hole: bool,
    /// The kind of the host's last error, if there was one.
    kind: Option<ErrorKind>,
}

/// What an error of the host is to a folder that is filled.
pub(crate) fn fault_of(kind: ErrorKind) -> FolderFault
    ensures { result ≡ filling_fault kind }
{
    match kind {
        ErrorKind::OutOfMemory => FolderFault::OutOfMemory,
        ErrorKind::StorageFull | ErrorKind::QuotaExceeded => FolderFault::NoSpace,
        _ => FolderFault::Refused,
    }
}

impl<F: Write + Seek + OpenFile + Drop> HostFile<F> {
    /// A file that was opened, with no places.
    pub(crate) fn new(file: F) -> Self
        ensures { ⟦<HostFile<F> as FilledFile>⟧.fault result ≡ None }
    {
        HostFile {
            file,
            length: 0,
            ends_in_hole: false,
            kind: None,
        }
    }

    pub(crate) fn file(&self) -> &F {
        &self.file
    }

    /// The kind of the host's last error, if there was one.
    pub(crate) fn kind(&self) -> Option<ErrorKind>
        ensures { result ≡ file_kind self.now }
    {
        self.kind
    }

    /// Goes behind a hole, and writes all bytes.
    fn write_there(&mut self, bytes: &[u8]) -> io::Result<()>
        ensures { self.new.kind ≡ self.old.kind }
    {
        if self.ends_in_hole {
            self.file.seek(SeekFrom::Start(self.length))?;
            self.ends_in_hole = false;
        }
        self.file.write_all(bytes)?;
        self.length = self.length.saturating_add(bytes.len() as u64);
        Ok(())
    }

    /// Makes a hole at the end a part of the file.
    pub(crate) fn set_end(&self) -> io::Result<()> {
        if self.ends_in_hole {
            return self.file.set_len(self.length);
        }
        Ok(())
    }
}

impl<F: Write + Seek + OpenFile + Drop> FilledFile for HostFile<F> {
    // What the system holds is not known.
    ghost cells = { λ _. None };

    ghost fault = { λ s. option_map filling_fault (file_kind s) };

    fn write(&mut self, bytes: &[u8]) -> Result<(), FolderFault> {
        match self.write_there(bytes) {
            Ok(()) => Ok(()),
            Err(error) => {
                let kind = error.kind();
                self.kind = Some(kind);
                Err(fault_of(kind))
            }
        }
    }

    fn skip(&mut self, count: u64) -> Result<(), FolderFault> {
        self.length = self.length.saturating_add(count);
        self.ends_in_hole = true;
        Ok(())
    }
}
