//! A folder of the system that is filled.

ghost use Rattle.std.specs.Prelude.{◌≡◌, true, None, Some, IfErr, IfOk, IsErrOf, IsFalse, OnOk};
ghost use Rattle.std.specs.Fs.{new_options, permissions_mode, with_create_new, with_write};
ghost use Rattle.std.specs.IoError.{error_kind};
ghost use Rattle.jextract.specs.Folders.{Counts, counted_fault};
ghost use Rattle.jhost.specs.FilledFaults.{filling_fault};
ghost use Rattle.jhost.specs.FilledFolders.{filled_kind, filled_root};
ghost use Rattle.jhost.specs.Silence.{FillsInSilence, HidesFilling};

use crate::file::{HostFile, fault_of};
use crate::paths::joined;
use crate::progress::Progress;
use jextract::{Attributes, Folder, FolderFault, Owner};
use std::alloc::AllocError;
use std::fs::{DirBuilder, FileTimes, OpenFile, OpenOptions, Permissions};
use std::io::{Eprint, ErrorKind};
use std::os::unix::fs::{DirBuilderExt, OpenOptionsExt, PermissionsExt, lchown, symlink};
use std::rt::{Clock, Files};
use std::time::{Duration, UNIX_EPOCH};
use std::{fs, io};

/// A directory and a file that are not complete yet are for whoever extracts alone.
const DIRECTORY_MODE: u32 = 0o700;

const FILE_MODE: u32 = 0o600;

/// A folder of the system that is filled.
#[derive(Drop)]
pub struct FilledFolder<'r, R: Files + AllocGlobal + Clock + Eprint> {
    rt: &'r R,
    root: String,
    failures: u64,
    full: u64,
    /// The kind of the host's last error.
    kind: ErrorKind,
    progress: Progress<'r, R>,
}

/// When a file was read last and written last, in seconds.
fn seconds_of(attributes: &Attributes) -> (u32, u32)
    ensures { result ≡ (attributes.now.atime, attributes.now.mtime) }
{
    (attributes.atime, attributes.mtime)
}

fn times_of(attributes: &Attributes) -> FileTimes {
    let (read, written) = seconds_of(attributes);
    FileTimes::new()
        .set_accessed(UNIX_EPOCH + Duration::from_secs(u64::from(read)))
        .set_modified(UNIX_EPOCH + Duration::from_secs(u64::from(written)))
}

fn permissions_of(attributes: &Attributes) -> Permissions
    ensures { permissions_mode result ≡ attributes.now.mode }
{
    Permissions::from_mode(attributes.mode)
}

/// Gives an open file or directory its permissions and times.
fn set_open<F: OpenFile>(file: &F, attributes: &Attributes) -> io::Result<()> {
    file.set_times(times_of(attributes))?;
    file.set_permissions(permissions_of(attributes))
}

/// The user and the group, as a change of an owner takes them.
fn numbers_of(owner: Owner) -> (Option<u32>, Option<u32>)
    ensures { result ≡ (Some owner.uid, Some owner.gid) }
{
    (Some(owner.uid), Some(owner.gid))
}

/// Gives a path its owner, where there is one. A change of the owner may clear bits of the mode, so
/// the mode comes after it.
fn set_owner<R: Files>(rt: &R, path: &str, attributes: &Attributes) -> io::Result<()> {
    match attributes.owner {
        Some(owner) => {
            let (user, group) = numbers_of(owner);
            lchown(rt, path, user, group)
        }
        None => Ok(()),
    }
}

/// How a file is opened that is made: to be written, and only where nothing has its name.
fn made_anew() -> OpenOptions
    ensures { result ≡ with_create_new (with_write new_options true) true }
{
    let mut how = OpenOptions::new();
    how.write(true).create_new(true);
    how
}

impl<'r, R: Files + AllocGlobal + Clock + Eprint> FilledFolder<'r, R> {
    /// The folder of a path, which is not made yet. It tells how far it is only where `tells`.
    pub fn new(rt: &'r R, path: &str, tells: bool) -> Result<Self, AllocError>
        ensures none { IfOk result (λ folder. ⟦<FilledFolder<'r, R> as Folder>⟧.failures folder
            ≡ record { refused = 0; full = 0 }) }
        ensures root { IfOk result (λ folder. filled_root folder ≡ path.now) }
        ensures kind { IfOk result (λ folder. filled_kind folder ≡ ErrorKind.Other) }
        ensures hidden { IfOk result HidesFilling }
        ensures silent { IsFalse tells → IfOk result (λ folder. FillsInSilence folder) }
    {
        Ok(FilledFolder {
            rt,
            root: String::from_str(rt.alloc(), path)?,
            failures: 0,
            full: 0,
            kind: ErrorKind::Other,
            progress: Progress::new(rt, tells),
        })
    }

    /// Counts a fault, where the host is to blame.
    fn count(&mut self, fault: FolderFault)
        ensures counts { ⟦<FilledFolder<'r, R> as Folder>⟧.failures self.new
            ≡ counted_fault fault (⟦<FilledFolder<'r, R> as Folder>⟧.failures self.old) }
        ensures kind { filled_kind self.new ≡ filled_kind self.old }
    {
        match fault {
            FolderFault::Refused => self.failures = self.failures.wrapping_add(1),
            FolderFault::NoSpace => self.full = self.full.wrapping_add(1),
            FolderFault::OutOfMemory => {}
        }
    }

    /// Notes an error of this kind, and counts its fault. Answers that.
    fn noted(&mut self, kind: ErrorKind) -> FolderFault
        ensures fault { result ≡ filling_fault kind }
        ensures counts { ⟦<FilledFolder<'r, R> as Folder>⟧.failures self.new
            ≡ counted_fault (filling_fault kind)
            (⟦<FilledFolder<'r, R> as Folder>⟧.failures self.old) }
        ensures kind { filled_kind self.new ≡ kind }
    {
        let fault = fault_of(kind);
        self.kind = kind;
        self.count(fault);
        fault
    }

    /// What a call comes to, counted where the host is to blame.
    fn counted<T: Drop>(&mut self, done: io::Result<T>) -> Result<T, FolderFault>
        ensures counts { Counts (⟦<FilledFolder<'r, R> as Folder>⟧.failures self.old)
            (⟦<FilledFolder<'r, R> as Folder>⟧.failures self.new) result }
        ensures fault { IfErr done (λ error. IsErrOf result (filling_fault (error_kind error))) }
        ensures made { IfOk done (λ made. result ≡ Ok made) }
        ensures kind { IfErr done (λ error. filled_kind self.new ≡ error_kind error) }
        ensures same { OnOk done (filled_kind self.new ≡ filled_kind self.old) }
    {
        match done {
            Ok(made) => Ok(made),
            Err(error) => Err(self.noted(error.kind())),
        }
    }

    fn make_directory_at(&self, path: &str) -> io::Result<()> {
        let path = joined(self.rt, self.root.as_str(), path)?;
        let mut how = DirBuilder::new();
        how.mode(DIRECTORY_MODE);
        how.create(self.rt, path.as_str())
    }

    fn make_file_at(&self, path: &str) -> io::Result<R::File> {
        let path = joined(self.rt, self.root.as_str(), path)?;
        let mut how = made_anew();
        how.mode(FILE_MODE);
        how.open(self.rt, path.as_str())
    }

    fn finish_file_at(
        &self,
        path: &str,
        file: &HostFile<R::File>,
        attributes: &Attributes,
    ) -> io::Result<()> {
        let path = joined(self.rt, self.root.as_str(), path)?;
        file.set_end()?;
        set_owner(self.rt, path.as_str(), attributes)?;
        set_open(file.file(), attributes)
    }

    fn make_symlink_at(&self, path: &str, target: &str, attributes: &Attributes) -> io::Result<()> {
        let path = joined(self.rt, self.root.as_str(), path)?;
        symlink(self.rt, target, path.as_str())?;
        set_owner(self.rt, path.as_str(), attributes)
    }

    fn make_link_at(&self, path: &str, first: &str) -> io::Result<()> {
        let path = joined(self.rt, self.root.as_str(), path)?;
        let first = joined(self.rt, self.root.as_str(), first)?;
        fs::hard_link(self.rt, first.as_str(), path.as_str())
    }

    fn finish_directory_at(&self, path: &str, attributes: &Attributes) -> io::Result<()> {
        let path = joined(self.rt, self.root.as_str(), path)?;
        set_owner(self.rt, path.as_str(), attributes)?;
        let directory = fs::open(self.rt, path.as_str())?;
        set_open(&directory, attributes)
    }

    /// The kind of the last error of the host; `Other` where there was none.
    pub fn kind(&self) -> ErrorKind
        ensures { result ≡ filled_kind self.now }
    {
        self.kind
    }

    /// Takes away what was told of how far it is.
    pub fn finish(&mut self)
        ensures hidden { HidesFilling self.new }
        ensures kind { filled_kind self.new ≡ filled_kind self.old }
    {
        self.progress.finish();
    }
}

impl<'r, R: Files + AllocGlobal + Clock + Eprint> Folder for FilledFolder<'r, R> {
    type File = HostFile<R::File>;

    ghost made = { λ _. None };

    ghost failures = { λ s. record { refused = s.failures; full = s.full } };

    fn make_directory(&mut self, path: &str) -> Result<(), FolderFault> {
        self.progress.step();
        let done = self.make_directory_at(path);
        self.counted(done)
    }

    fn make_file(&mut self, path: &str) -> Result<HostFile<R::File>, FolderFault> {
        self.progress.step();
        let done = self.make_file_at(path);
        Ok(HostFile::new(self.counted(done)?))
    }

    fn finish_file(
        &mut self,
        path: &str,
        file: HostFile<R::File>,
        attributes: Attributes,
    ) -> Result<(), FolderFault> {
        let done = self.finish_file_at(path, &file, &attributes);
        self.counted(done)
    }

    fn give_up_file(&mut self, _path: &str, file: HostFile<R::File>) {
        if let Some(kind) = file.kind() {
            self.noted(kind);
        }
    }

    fn make_symlink(
        &mut self,
        path: &str,
        target: &str,
        attributes: Attributes,
    ) -> Result<(), FolderFault> {
        self.progress.step();
        let done = self.make_symlink_at(path, target, &attributes);
        self.counted(done)
    }

    fn make_link(&mut self, path: &str, first: &str) -> Result<(), FolderFault> {
        self.progress.step();
        let done = self.make_link_at(path, first);
        self.counted(done)
    }

    fn finish_directory(&mut self, path: &str, attributes: Attributes) -> Result<(), FolderFault> {
        let done = self.finish_directory_at(path, &attributes);
        self.counted(done)
    }
}
