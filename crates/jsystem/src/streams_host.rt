//! Files of the system of which a part is read, and standard output as JSON.
ghost use Rattle.std.specs.Prelude.{IfOk};

use crate::host::{Parts, SystemHost};
use jedge::fault::Fault;
use jedge::streams_host::StreamsHost;
use jjson::Lines;
use jspare::Region;
use std::alloc::{AllocError, Global};

/// Their names, to be held.
fn copied(alloc: Global, names: &[&str]) -> Result<Vec<String>, AllocError> {
    let mut copies = Vec::new(alloc);
    for name in names {
        copies.push(name.to_string(alloc)?)?;
    }
    Ok(copies)
}

impl<'r> StreamsHost for SystemHost<'r> {
    fn read_region(&mut self, region: Region, names: &[&str]) -> Result<(), Fault> {
        match copied(self.rt.alloc(), names) {
            Ok(names) => {
                self.parts = Some(Parts { region, names });
                Ok(())
            }
            Err(AllocError) => Err(Fault::OutOfMemory),
        }
    }

    fn print_json(&mut self, lines: Lines) {
        self.json = Some(lines);
    }
}
