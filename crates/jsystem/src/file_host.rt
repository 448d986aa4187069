//! Files of the system that are made.
use crate::faults::unmade;
use crate::host::SystemHost;
use crate::making::{NewFile, open_wanted};
use crate::output::BufferedOutput;
use crate::replacing::is_same_file;
use jedge::fault::Fault;
use jmakes::host::FileHost;
use jmakes::wanted::{CloseFault, Filling, Wanted};
use std::fs;
use std::fs::File;

impl<'r> FileHost for SystemHost<'r> {
    type Opened = NewFile;

    type Made = BufferedOutput<File>;

    fn is_one_file(&mut self, first: &str, second: &str) -> bool {
        match (fs::metadata(self.rt, first), fs::metadata(self.rt, second)) {
            (Ok(first), Ok(second)) => is_same_file(&first, &second),
            _ => false,
        }
    }

    fn create(&mut self, wanted: Wanted<'_>) -> Result<(NewFile, BufferedOutput<File>), Fault> {
        let (file, opened) = match open_wanted(self.rt, wanted) {
            Ok(made) => made,
            Err(error) => return Err(unmade(self.rt.alloc(), wanted.name, &error)),
        };
        match BufferedOutput::new(self.rt.alloc(), file) {
            Ok(made) => Ok((opened, made)),
            Err(_) => {
                opened.give_up(self.rt);
                Err(Fault::OutOfMemory)
            }
        }
    }

    fn close_file(
        &mut self,
        opened: NewFile,
        made: BufferedOutput<File>,
        filling: Option<Filling>,
        well: bool,
    ) -> Result<(), CloseFault> {
        let mut made = made;
        let written = made.finish(if well { filling } else { None });
        opened.end(self.rt, made.writer(), written, well)
    }
}
