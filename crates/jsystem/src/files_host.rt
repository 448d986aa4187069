//! Files of the system that are read beside one another.
ghost use Rattle.std.specs.Prelude.{◌≡◌};
ghost use Rattle.std.specs.Fs.{IsFile, file_type, metadata_len};

use crate::faults::unread;
use crate::host::{OpenedFile, SystemHost};
use crate::source::FileSource;
use flashbase::LoadFault;
use jbuild::HostFiles;
use jedge::fault::Fault;
use jreads::files_host::FilesHost;
use jreport::ProgramFault;
use jscan::GREATEST_IMAGE;
use std::fs;
use std::fs::Metadata;

/// The length of what was found, if it is a regular file. Anything else that can be read, such as a
/// pipe, has none that is known.
fn known_length(found: &Metadata) -> u64
    ensures regular { IsFile (file_type found.now) → result ≡ metadata_len found.now }
    ensures other { (IsFile (file_type found.now) → ⊥) → result ≡ 0 }
{
    if found.is_file() { found.len() } else { 0 }
}

impl<'r> FilesHost for SystemHost<'r> {
    fn length(&mut self, name: &str) -> u64 {
        match fs::metadata(self.rt, name) {
            Ok(found) => known_length(&found),
            Err(_) => 0,
        }
    }

    fn read_with(&mut self, input: OpenedFile, files: &mut HostFiles) -> Result<(), Fault> {
        let OpenedFile { name, file } = input;
        let Ok(key) = name.as_str().to_string(self.rt.alloc()) else {
            return Err(Fault::Refused(ProgramFault::Load(LoadFault::OutOfMemory)));
        };
        let mut source = FileSource::new(file);
        match files.read(self.rt.alloc(), key, &mut source, GREATEST_IMAGE) {
            Ok(()) => Ok(()),
            Err(why) => Err(unread(name, source.reason(), why)),
        }
    }
}
