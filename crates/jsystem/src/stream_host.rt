//! Files of the system that are read as streams.
use crate::host::{OpenedFile, SystemHost};
use crate::source::{FileSource, reason_of};
use jedge::fault::{FailedFile, Fault};
use jreads::stream_host::{StreamHost, Streamed};
use jspare::RegionSource;
use std::fs::File;

/// The name of a file that is read as a stream.
#[derive(Drop)]
pub struct StreamedFile {
    name: String,
}

impl Streamed for StreamedFile {
    ghost use Rattle.std.specs.Prelude.{None, string_bytes};

    ghost name = { λ file. string_bytes file.name };

    // What the system has under the name is not known.
    ghost whole = { λ _. None };
}

impl<'r> StreamHost for SystemHost<'r> {
    type Streamed = StreamedFile;

    type Source = RegionSource<FileSource<File>>;

    fn stream(&mut self, input: OpenedFile) -> (StreamedFile, RegionSource<FileSource<File>>) {
        let OpenedFile { name, file } = input;
        let region = self.region_of(name.as_str());
        let source = RegionSource::new(FileSource::new(file), region);
        (StreamedFile { name }, source)
    }

    fn close_stream(
        &mut self,
        streamed: StreamedFile,
        source: RegionSource<FileSource<File>>,
    ) -> Result<(), Fault> {
        if source.failures() == 0 {
            return Ok(());
        }
        let StreamedFile { name } = streamed;
        Err(Fault::NotRead(FailedFile {
            name,
            reason: reason_of(&source),
        }))
    }
}
