//! A folder that keeps a record of what is made in it.

ghost use Rattle.std.specs.Prelude.{◌≡◌};
ghost use Rattle.jextract.specs.Cells.{Fails};
ghost use Rattle.jextract.specs.Folders.{Counts, counted_fault};

use jextract::{Attributes, FilledFile, Folder, FolderFault};
use std::alloc::{AllocError, Global};

/// A file that keeps its bytes, and each hole as its length in brackets. It fails once, after
/// `calls` others.
#[derive(Drop)]
pub(crate) struct RecordedFile {
    text: Vec<u8>,
    calls: u64,
    /// What it fails with.
    failure: FolderFault,
    fault: Option<FolderFault>,
    alloc: Global,
}

impl RecordedFile {
    fn fail(&mut self, fault: FolderFault) -> Result<(), FolderFault>
        ensures fails { Fails self.old.fault self.new.fault result }
    {
        self.fault = Some(fault);
        Err(fault)
    }

    /// Keeps this text, or fails.
    fn keep(&mut self, text: Result<&[u8], AllocError>) -> Result<(), FolderFault>
        ensures fails { Fails self.old.fault self.new.fault result }
    {
        if self.calls == 0 {
            self.calls = u64::MAX;
            return self.fail(self.failure);
        }
        self.calls = self.calls.wrapping_sub(1);
        let Ok(text) = text else {
            return self.fail(FolderFault::OutOfMemory);
        };
        match self.text.extend_from_slice(text) {
            Ok(()) => Ok(()),
            Err(_) => self.fail(FolderFault::OutOfMemory),
        }
    }
}

impl FilledFile for RecordedFile {
    ghost use Rattle.std.specs.Prelude.{None};

    ghost cells = { λ _. None };

    ghost fault = { λ f. f.fault };

    fn write(&mut self, bytes: &[u8]) -> Result<(), FolderFault> {
        self.keep(Ok(bytes))
    }

    fn skip(&mut self, count: u64) -> Result<(), FolderFault> {
        match format!(in self.alloc; "({count})") {
            Ok(text) => self.keep(Ok(text.as_bytes())),
            Err(error) => self.keep(Err(error)),
        }
    }
}

/// Keeps a line for each thing that is made. It fails at one call, after `calls` others.
#[derive(Drop)]
pub(crate) struct Recorder {
    pub(crate) lines: String,
    pub(crate) calls: u64,
    /// After how many writes and holes a file fails once.
    pub(crate) puts: u64,
    /// What the folder, or a file of it, fails with.
    pub(crate) failure: FolderFault,
    pub(crate) failures: u64,
    pub(crate) full: u64,
    alloc: Global,
}

impl Recorder {
    pub(crate) fn new(alloc: Global, calls: u64, puts: u64) -> Recorder {
        Recorder {
            lines: String::new(alloc),
            calls,
            puts,
            failure: FolderFault::Refused,
            failures: 0,
            full: 0,
            alloc,
        }
    }

    fn count(&mut self, fault: FolderFault)
        ensures { record { refused = self.new.failures; full = self.new.full }
            ≡ counted_fault fault (record { refused = self.old.failures; full = self.old.full }) }
    {
        match fault {
            FolderFault::Refused => self.failures = self.failures.wrapping_add(1),
            FolderFault::NoSpace => self.full = self.full.wrapping_add(1),
            FolderFault::OutOfMemory => {}
        }
    }

    /// Keeps a line, or fails.
    fn keep(&mut self, line: Result<String, AllocError>) -> Result<(), FolderFault>
        ensures { Counts (record { refused = self.old.failures; full = self.old.full })
            (record { refused = self.new.failures; full = self.new.full }) result }
    {
        if self.calls == 0 {
            self.calls = u64::MAX;
            let failure = self.failure;
            self.count(failure);
            return Err(failure);
        }
        self.calls = self.calls.wrapping_sub(1);
        let Ok(line) = line else {
            return Err(FolderFault::OutOfMemory);
        };
        match self.lines.push_str(line.as_str()) {
            Ok(()) => Ok(()),
            Err(_) => Err(FolderFault::OutOfMemory),
        }
    }
}

/// The attributes, as a record has them.
fn shown(alloc: Global, attributes: Attributes) -> Result<String, AllocError> {
    let Attributes {
        mode,
        mtime,
        atime,
        owner,
    } = attributes;
    match owner {
        Some(owner) => { format!(in alloc; "{mode:o} {mtime} {atime} {}:{}", owner.uid, owner.gid) }
        None => format!(in alloc; "{mode:o} {mtime} {atime}"),
    }
}

/// The bytes, as a record has them.
fn text_of(bytes: &[u8]) -> &str {
    str::from_utf8(bytes).unwrap_or("?")
}

fn content_line(
    alloc: Global,
    path: &str,
    bytes: &[u8],
    attributes: Attributes,
) -> Result<String, AllocError> {
    let shown = shown(alloc, attributes)?;
    format!(in alloc; "content {path} [{}] {shown}\n", text_of(bytes))
}

fn symlink_line(
    alloc: Global,
    path: &str,
    target: &str,
    attributes: Attributes,
) -> Result<String, AllocError> {
    let shown = shown(alloc, attributes)?;
    format!(in alloc; "symlink {path} {target} {shown}\n")
}

fn attributes_line(
    alloc: Global,
    path: &str,
    attributes: Attributes,
) -> Result<String, AllocError> {
    let shown = shown(alloc, attributes)?;
    format!(in alloc; "attributes {path} {shown}\n")
}

/// The path of a line, where it tells of something that was made anew.
fn made_path(line: &str) -> Option<&str> {
    let (word, rest) = line.split_once(' ')?;
    if word == "content" || word == "attributes" {
        return None;
    }
    match rest.split_once(' ') {
        Some((path, _)) => Some(path),
        None => Some(rest),
    }
}

/// Whether these lines tell of at most one thing that is made at each path.
pub(crate) fn is_made_once(alloc: Global, lines: &str) -> Result<bool, AllocError> {
    let mut paths = Vec::new(alloc);
    for line in lines.split('\n') {
        if let Some(path) = made_path(line) {
            if paths.contains(&path) {
                return Ok(false);
            }
            paths.push(path)?;
        }
    }
    Ok(true)
}

impl Folder for Recorder {
    type File = RecordedFile;

    ghost use Rattle.std.specs.Prelude.{None};

    ghost made = { λ _. None };

    ghost failures = { λ r. record { refused = r.failures; full = r.full } };

    fn make_directory(&mut self, path: &str) -> Result<(), FolderFault> {
        self.keep(format!(in self.alloc; "directory {path}\n"))
    }

    fn make_file(&mut self, path: &str) -> Result<RecordedFile, FolderFault> {
        self.keep(format!(in self.alloc; "file {path}\n"))?;
        Ok(RecordedFile {
            text: Vec::new(self.alloc),
            calls: self.puts,
            failure: self.failure,
            fault: None,
            alloc: self.alloc,
        })
    }

    fn finish_file(
        &mut self,
        path: &str,
        file: RecordedFile,
        attributes: Attributes,
    ) -> Result<(), FolderFault> {
        self.keep(content_line(self.alloc, path, &file.text, attributes))
    }

    fn give_up_file(&mut self, _path: &str, file: RecordedFile) {
        if let Some(fault) = file.fault {
            self.count(fault);
        }
    }

    fn make_symlink(
        &mut self,
        path: &str,
        target: &str,
        attributes: Attributes,
    ) -> Result<(), FolderFault> {
        self.keep(symlink_line(self.alloc, path, target, attributes))
    }

    fn make_link(&mut self, path: &str, first: &str) -> Result<(), FolderFault> {
        self.keep(format!(in self.alloc; "link {path} {first}\n"))
    }

    fn finish_directory(&mut self, path: &str, attributes: Attributes) -> Result<(), FolderFault> {
        self.keep(attributes_line(self.alloc, path, attributes))
    }
}
