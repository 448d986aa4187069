//! All that a command may touch, of the system. What the system did is not reported.
ghost use Rattle.std.specs.Prelude.{◌≡◌, None};

use crate::faults::unread;
use crate::output::BufferedOutput;
use crate::source::{FileSource, reason_of};
use flashbase::{FromWriter, load};
use jedge::fault::{FailedFile, Fault};
use jedge::host::{Host, Input};
use jjson::{JsonSink, Lines};
use jreport::Reason;
use jscan::GREATEST_IMAGE;
use jspare::{Region, RegionSource};
use std::alloc::Global;
use std::fs::File;
use std::io::{ErrorKind, Stderr, Stdout};
use std::{fs, io};

/// A file of the system that was opened by this name.
#[derive(Drop)]
pub struct OpenedFile {
    pub(crate) name: String,
    pub(crate) file: File,
}

impl Input for OpenedFile {
    ghost use Rattle.std.specs.Prelude.{string_bytes};

    ghost name = { λ input. string_bytes input.name };
}

/// The name of standard input.
const STANDARD_INPUT: &str = "-";

/// The names of files of which this part is read.
#[derive(Drop)]
pub(crate) struct Parts {
    pub(crate) region: Region,
    pub(crate) names: Vec<String>,
}

impl Parts {
    /// Whether this is one of the names.
    fn has(&self, name: &str) -> bool {
        for named in &self.names {
            if named.as_str() == name {
                return true;
            }
        }
        false
    }
}

/// All of a file.
const WHOLE: Region = Region {
    layout: None,
    offset: 0,
    length: None,
};

/// The system's files, streams and folders.
#[derive(Drop)]
pub struct SystemHost<'r> {
    pub(crate) rt: &'r HostRuntime,
    /// Standard input was opened: it can be read once.
    input_taken: bool,
    pub(crate) parts: Option<Parts>,
    /// What the lines are that standard output gets, if they go out as JSON.
    pub(crate) json: Option<Lines>,
}

impl<'r> SystemHost<'r> {
    pub fn new(rt: &'r HostRuntime) -> Self
        ensures { ⟦<SystemHost<'r> as Host>⟧.history result ≡ None }
    {
        SystemHost {
            rt,
            input_taken: false,
            parts: None,
            json: None,
        }
    }

    /// Which part of the file of a name is read.
    pub(crate) fn region_of(&self, name: &str) -> Region {
        match &self.parts {
            Some(parts) if parts.has(name) => parts.region,
            _ => WHOLE,
        }
    }

    /// Standard input, the first time that it is asked for.
    fn standard_input(&mut self) -> io::Result<File> {
        if self.input_taken {
            return Err(io::Error::from(ErrorKind::ResourceBusy));
        }
        self.input_taken = true;
        fs::open(self.rt, "/dev/stdin")
    }

    /// The file of a name: `-` is standard input.
    fn input_named(&mut self, name: &str) -> io::Result<File> {
        if name == STANDARD_INPUT {
            return self.standard_input();
        }
        fs::open(self.rt, name)
    }
}

impl<'r> Host for SystemHost<'r> {
    ghost use Rattle.std.specs.Prelude.{None};

    ghost history = { λ _. None };

    type Input = OpenedFile;

    type Output = JsonSink<BufferedOutput<Stdout>>;

    type Errors = FromWriter<Stderr>;

    fn alloc(&self) -> Global {
        self.rt.alloc()
    }

    fn open(&mut self, name: &str) -> Result<OpenedFile, Fault> {
        let Ok(name) = name.to_string(self.rt.alloc()) else {
            return Err(Fault::OutOfMemory);
        };
        match self.input_named(name.as_str()) {
            Ok(file) => Ok(OpenedFile { name, file }),
            Err(error) => Err(Fault::File(FailedFile {
                name,
                reason: Reason::of(&error),
            })),
        }
    }

    fn read(&mut self, input: OpenedFile) -> Result<Vec<u8>, Fault> {
        let OpenedFile { name, file } = input;
        let region = self.region_of(name.as_str());
        let mut source = RegionSource::new(FileSource::new(file), region);
        match load(self.rt.alloc(), &mut source, GREATEST_IMAGE) {
            Ok(bytes) => Ok(bytes),
            Err(why) => Err(unread(name, reason_of(&source), why)),
        }
    }

    fn output(&mut self) -> Result<JsonSink<BufferedOutput<Stdout>>, Fault> {
        match BufferedOutput::new(self.rt.alloc(), self.rt.stdout()) {
            Ok(out) => Ok(JsonSink::new(self.rt.alloc(), out, self.json)),
            Err(_) => Err(Fault::OutOfMemory),
        }
    }

    fn close(&mut self, out: JsonSink<BufferedOutput<Stdout>>) -> Result<(), Fault> {
        let failures = out.own_failures();
        let mut below = out.into_below();
        match below.finish(None) {
            Ok(()) if failures == 0 => Ok(()),
            _ => Err(Fault::Output),
        }
    }

    fn errors(&mut self) -> FromWriter<Stderr> {
        FromWriter::new(self.rt.stderr())
    }

    fn close_errors(&mut self, _errors: FromWriter<Stderr>) {}
}
