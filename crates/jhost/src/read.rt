//! A folder of the system that is read.

ghost use Rattle.std.specs.Prelude.{◌≡◌, ◌++◌, ◌∷◌, [], IfErr, IfNone, IfOk, IfSome, IsFalse, IsOk, None, OnOk, string_bytes};
ghost use Rattle.std.specs.Fs.{IsFile, file_type, metadata_len, metadata_mode};
ghost use Rattle.std.specs.IoError.{error_kind};
ghost use Rattle.jfolder.specs.Known.{named_of, nothing};
ghost use Rattle.jhost.specs.Answers.{answer_of, fault_of_kind};
ghost use Rattle.jhost.specs.NamesRead.{AddsEntry};
ghost use Rattle.jhost.specs.JoinedPaths.{joined_path};
ghost use Rattle.jhost.specs.ReadFolders.{last_kind, read_root, read_whole};
ghost use Rattle.jhost.specs.Silence.{HidesReading, ReadsInSilence};

use crate::paths::{joined, put_joined};
use crate::progress::Progress;
use jfolder::{FolderFault, HostFolder, Looked, Names};
use std::alloc::AllocError;
use std::fs::{DirEntry, Metadata};
use std::io::{Eprint, Error, ErrorKind};
use std::os::unix::fs::MetadataExt;
use std::rt::{Clock, Files};
use std::{fs, io};

/// The file that standard output is, by its own path.
const OUTPUT: &str = "/dev/stdout";

/// A folder of the system that is read.
#[derive(Drop)]
pub struct ReadFolder<'r, R: Files + AllocGlobal + Clock + Eprint> {
    rt: &'r R,
    root: String,
    /// The path of the host that it was asked for last.
    whole: String,
    /// The device and the number of the regular file that standard output is, if it is one.
    output: Option<(u64, u64)>,
    /// The kind of the host's last error.
    kind: ErrorKind,
    progress: Progress<'r, R>,
}

/// Why the host did not do what it was asked for.
fn fault_of(error: &Error) -> FolderFault
    ensures { result ≡ fault_of_kind (error_kind error.now) }
{
    match error.kind() {
        ErrorKind::OutOfMemory => FolderFault::OutOfMemory,
        ErrorKind::InvalidFilename => FolderFault::NoText,
        _ => FolderFault::Refused,
    }
}

/// What a call of the host comes to.
fn answered<T: Drop>(done: io::Result<T>) -> Result<T, FolderFault>
    ensures { result ≡ answer_of done }
{
    match done {
        Ok(answer) => Ok(answer),
        Err(error) => Err(fault_of(&error)),
    }
}

/// What the system tells of an object. Each field is read here and nowhere else.
fn looked_of(metadata: &Metadata) -> Looked
    ensures mode { result.mode ≡ metadata_mode metadata.now }
    ensures size { result.size ≡ metadata_len metadata.now }
{
    Looked {
        mode: metadata.mode(),
        uid: metadata.uid(),
        gid: metadata.gid(),
        time: metadata.mtime(),
        size: metadata.size(),
        links: metadata.nlink(),
        device: metadata.dev(),
        number: metadata.ino(),
        special: metadata.rdev(),
    }
}

/// The device and the number of a regular file.
fn file_of(metadata: &Metadata) -> Option<(u64, u64)>
    ensures regular { IfSome result (λ _. IsFile (file_type metadata.now)) }
    ensures other { IfNone result (IsFile (file_type metadata.now) → ⊥) }
{
    if !metadata.is_file() {
        return None;
    }
    let looked = looked_of(metadata);
    Some((looked.device, looked.number))
}

/// The regular file that standard output is, if it is one.
fn output_file<R: Files>(rt: &R) -> Option<(u64, u64)> {
    match fs::metadata(rt, OUTPUT) {
        Ok(metadata) => file_of(&metadata),
        Err(_) => None,
    }
}

/// Adds a name that is text.
fn push_name<R: AllocGlobal>(rt: &R, names: &mut Names, name: &str) -> Result<(), AllocError>
    ensures { IfOk result
        (λ _. named_of names.new ≡ record {
          texts = (named_of names.old).texts ++ name.now ∷ [];
          others = names.old.others;
        }) }
{
    let name = String::from_str(rt.alloc(), name)?;
    names.texts.push(name)?;
    Ok(())
}

/// Adds the name of an entry. One that is no text comes as an error of its own kind, and is
/// counted.
fn add_name<R: Files + AllocGlobal>(
    rt: &R,
    names: &mut Names,
    entry: io::Result<DirEntry<&R>>,
) -> io::Result<()>
    ensures { AddsEntry (named_of names.old) (named_of names.new) entry.entry result }
{
    match entry {
        Ok(entry) => {
            push_name(rt, names, entry.file_name())?;
            Ok(())
        }
        Err(error) => {
            if error.kind() != ErrorKind::InvalidFilename {
                return Err(error);
            }
            names.others = names.others.saturating_add(1);
            Ok(())
        }
    }
}

/// The names in a directory.
fn names_in<R: Files + AllocGlobal>(rt: &R, path: &str) -> io::Result<Names> {
    let mut names = Names {
        texts: Vec::new(rt.alloc()),
        others: 0,
    };
    for entry in fs::read_dir(&rt, path)? {
        add_name(rt, &mut names, entry)?;
    }
    Ok(names)
}

impl<'r, R: Files + AllocGlobal + Clock + Eprint> ReadFolder<'r, R> {
    /// The folder of a path. It tells how far it is only where `tells`. The file that standard
    /// output is written to is not told.
    pub fn new(rt: &'r R, path: &str, tells: bool) -> Result<Self, AllocError>
        ensures root { IfOk result (λ folder. read_root folder ≡ path.now) }
        ensures kind { IfOk result (λ folder. last_kind folder ≡ ErrorKind.Other) }
        ensures hidden { IfOk result HidesReading }
        ensures silent { IsFalse tells → IfOk result (λ folder. ReadsInSilence folder) }
    {
        Ok(ReadFolder {
            rt,
            root: String::from_str(rt.alloc(), path)?,
            whole: String::new(rt.alloc()),
            output: output_file(rt),
            kind: ErrorKind::Other,
            progress: Progress::new(rt, tells),
        })
    }

    fn joined(&self, path: &str) -> Result<String, AllocError>
        ensures { IfOk result
            (λ whole. string_bytes whole ≡ joined_path (read_root self.now) path.now) }
    {
        joined(self.rt, self.root.as_str(), path)
    }

    /// Puts the path of the host for one below the folder.
    fn put_whole(&mut self, path: &str) -> Result<(), AllocError>
        ensures whole { OnOk result
            (read_whole self.new ≡ joined_path (read_root self.old) path.now) }
        ensures root { read_root self.new ≡ read_root self.old }
        ensures kind { last_kind self.new ≡ last_kind self.old }
    {
        put_joined(&mut self.whole, self.root.as_str(), path)
    }

    /// What the system tells of an object, unless it is the file that standard output is.
    fn told(&self, metadata: &Metadata) -> Result<Looked, FolderFault>
        ensures mode { IfOk result (λ it. it.mode ≡ metadata_mode metadata.now) }
        ensures size { IfOk result (λ it. it.size ≡ metadata_len metadata.now) }
        ensures output { IfErr result (λ fault. fault ≡ FolderFault.Output) }
        ensures every { self.now.output ≡ None → IsOk result }
    {
        if self.output.is_some() && file_of(metadata) == self.output {
            return Err(FolderFault::Output);
        }
        Ok(looked_of(metadata))
    }

    /// What a call of the host comes to; the kind of an error is noted.
    fn answered<T: Drop>(&mut self, done: io::Result<T>) -> Result<T, FolderFault>
        ensures answer { result ≡ answer_of done }
        ensures kind { IfErr done (λ error. last_kind self.new ≡ error_kind error) }
        ensures same { OnOk done (last_kind self.new ≡ last_kind self.old) }
        ensures root { read_root self.new ≡ read_root self.old }
    {
        if let Err(error) = &done {
            self.kind = error.kind();
        }
        answered(done)
    }

    /// The kind of the last error of the host; `Other` where there was none.
    pub fn kind(&self) -> ErrorKind
        ensures { result ≡ last_kind self.now }
    {
        self.kind
    }

    /// Takes away what was told of how far it is.
    pub fn finish(&mut self)
        ensures hidden { HidesReading self.new }
        ensures root { read_root self.new ≡ read_root self.old }
        ensures kind { last_kind self.new ≡ last_kind self.old }
    {
        self.progress.finish();
    }
}

impl<'r, R: Files + AllocGlobal + Clock + Eprint> HostFolder for ReadFolder<'r, R> {
    // What the system tells is not known.
    ghost known = { λ _. nothing };

    fn look(&mut self, path: &str) -> Result<Looked, FolderFault> {
        self.progress.step();
        self.put_whole(path)?;
        let done = fs::symlink_metadata(self.rt, self.whole.as_str());
        let metadata = self.answered(done)?;
        self.told(&metadata)
    }

    fn names(&mut self, path: &str) -> Result<Names, FolderFault> {
        self.put_whole(path)?;
        let done = names_in(self.rt, self.whole.as_str());
        self.answered(done)
    }

    fn target(&mut self, path: &str) -> Result<String, FolderFault> {
        self.put_whole(path)?;
        let done = fs::read_link(self.rt, self.whole.as_str());
        let target = self.answered(done)?;
        Ok(target.into_string())
    }

    fn host_path(&mut self, path: &str) -> Result<String, FolderFault> {
        Ok(self.joined(path)?)
    }

    fn open(&mut self, path: &str) -> Result<(), FolderFault> {
        self.put_whole(path)?;
        let done = fs::open(self.rt, self.whole.as_str());
        let _file = self.answered(done)?;
        Ok(())
    }
}
