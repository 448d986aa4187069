//! Files of the system that are read as they are found in a folder.
use crate::source::FileSource;
use jfolders::keeper::Opener;
use std::fs;
use std::fs::File;
use std::rt::Files;

/// Opens files of the system.
#[derive(Drop)]
pub struct FileOpener<'r, R: Files<File = File>> {
    rt: &'r R,
}

impl<'r, R: Files<File = File>> FileOpener<'r, R> {
    pub(crate) fn new(rt: &'r R) -> Self {
        FileOpener { rt }
    }
}

impl<'r, R: Files<File = File>> Opener for FileOpener<'r, R> {
    ghost use Rattle.std.specs.Prelude.{None};

    type File = FileSource<File>;

    // What the system has under a name is not known.
    ghost has = { λ _ _. None };

    fn open(&mut self, name: &str) -> Option<FileSource<File>> {
        match fs::open(self.rt, name) {
            Ok(file) => Some(FileSource::new(file)),
            Err(_) => None,
        }
    }

    fn close(&mut self, _file: FileSource<File>) {}
}
