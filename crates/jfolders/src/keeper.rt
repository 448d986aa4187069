//! Files that are read as they are found in a folder, and kept.

ghost use Rattle.std.specs.Prelude.{◌≡◌, ◌+◌, ◌<◌, ℕ, IfOk, IfSome, IsFalse, IsTrue, List, None, OnOk, Option, string_bytes};
ghost use Rattle.jscan.specs.Image.{greatest_image};
ghost use Rattle.jfolders.specs.Keepers.{Keeps, size_looked};
ghost use Rattle.jfolders.specs.Keeping.{files_kept};

use crate::first::FirstBytes;
use crate::kept::KeptFiles;
use flashbase::Source;
use jfolder::{FolderFault, HostFolder, Looked, Names};
use jscan::GREATEST_IMAGE;
use std::alloc::{AllocError, Global};

/// Opens files of the host by their names.
pub trait Opener {
    type File: Source;

    /// What the file of each name has, if that is known. No call changes it.
    ghost has: { Self → List ℕ → Option (List ℕ) };

    /// The file of a name, to be read, if it is opened.
    fn open(&mut self, name: &str) -> Option<Self::File>
        ensures file { IfSome result (λ file. Self.File.rest file ≡ has self.old name.now) }
        ensures same { has self.new ≡ has self.old };

    /// Takes back a file that was read.
    fn close(&mut self, file: Self::File)
        ensures { has self.new ≡ has self.old };
}

/// Reads files and keeps them, as far as their sizes are together no more than the greatest image.
#[derive(Drop)]
pub struct Keeper<O: Opener + Drop> {
    alloc: Global,
    opener: O,
    files: KeptFiles,
    /// How many bytes may still be kept, by the sizes of the files.
    left: u64,
}

impl<O: Opener + Drop> Keeper<O> {
    /// A keeper of no files yet.
    pub fn new(alloc: Global, opener: O) -> Self
        ensures none { (name : List ℕ) → files_kept result.files name ≡ None }
        ensures opener { result.opener ≡ opener }
        ensures left { result.left ≡ greatest_image }
    {
        Keeper {
            alloc,
            opener,
            files: KeptFiles::new(alloc),
            left: GREATEST_IMAGE as u64,
        }
    }

    /// Whether the file of a name was read and is kept: its bytes up to the size that was told of
    /// it, or all of them if it was told none. It is not even opened if it has no room beside those
    /// that are kept.
    pub fn keep(&mut self, name: String, size: u64) -> bool
        ensures kept { IsTrue result → Keeps (O.has self.old.opener) size (string_bytes name)
            (files_kept self.old.files) (files_kept self.new.files) }
        ensures none { IsFalse result → (n : List ℕ)
            → files_kept self.new.files n ≡ files_kept self.old.files n }
        ensures long { self.old.left < size → IsFalse result × (self.new ≡ self.old) }
        ensures left { IsTrue result → self.new.left + size ≡ self.old.left }
        ensures same { IsFalse result → self.new.left ≡ self.old.left }
        ensures opener { O.has self.new.opener ≡ O.has self.old.opener }
    {
        if self.left < size {
            return false;
        }
        let Some(file) = self.opener.open(name.as_str()) else {
            return false;
        };
        let most = if size == 0 { u64::MAX } else { size };
        let mut first = FirstBytes::new(file, most);
        let read = self.files.read(self.alloc, name, &mut first);
        self.opener.close(first.into_source());
        if read.is_err() {
            return false;
        }
        self.left -= size;
        true
    }
}

/// A folder that is read, and whose files are kept. Each file that can be opened is read at once,
/// so that it is not opened again, unless it has no room beside the others.
#[derive(Drop)]
pub struct KeepingFolder<F: HostFolder + Drop, O: Opener + Drop> {
    folder: F,
    keeper: Keeper<O>,
    /// What was looked at last, and its size.
    looked: String,
    size: u64,
}

impl<F: HostFolder + Drop, O: Opener + Drop> KeepingFolder<F, O> {
    /// A folder that is read, with what keeps its files.
    pub fn new(alloc: Global, folder: F, keeper: Keeper<O>) -> Self
        ensures folder { result.folder ≡ folder }
        ensures keeper { result.keeper ≡ keeper }
    {
        KeepingFolder {
            folder,
            keeper,
            looked: String::new(alloc),
            size: 0,
        }
    }

    /// The folder itself, and the files that were kept.
    pub fn into_parts(self) -> (F, KeptFiles)
        ensures { result ≡ (self.folder, self.keeper.files) }
    {
        (self.folder, self.keeper.files)
    }

    /// The size of the object of a path, if it was looked at last; else 0.
    fn size_of(&self, path: &str) -> u64
        ensures { result ≡ size_looked (string_bytes self.now.looked) self.now.size path.now }
    {
        if self.looked.as_str() == path {
            self.size
        } else {
            0
        }
    }

    /// Remembers the size of the object of a path that was looked at.
    fn remember(&mut self, path: &str, size: u64) -> Result<(), AllocError>
        ensures size { OnOk result
            (size_looked (string_bytes self.new.looked) self.new.size path.now ≡ size) }
        ensures folder { self.new.folder ≡ self.old.folder }
        ensures keeper { self.new.keeper ≡ self.old.keeper }
    {
        self.looked.clear();
        self.looked.push_str(path)?;
        self.size = size;
        Ok(())
    }
}

impl<F: HostFolder + Drop, O: Opener + Drop> HostFolder for KeepingFolder<F, O> {
    ghost use Rattle.jfolders.specs.Keepers.{known_keeping};

    ghost known = { λ folder. known_keeping (F.known folder.folder) };

    fn look(&mut self, path: &str) -> Result<Looked, FolderFault> {
        let looked = self.folder.look(path)?;
        self.remember(path, looked.size)?;
        Ok(looked)
    }

    fn names(&mut self, path: &str) -> Result<Names, FolderFault> {
        self.folder.names(path)
    }

    fn target(&mut self, path: &str) -> Result<String, FolderFault> {
        self.folder.target(path)
    }

    fn host_path(&mut self, path: &str) -> Result<String, FolderFault> {
        self.folder.host_path(path)
    }

    fn open(&mut self, path: &str) -> Result<(), FolderFault> {
        let size = self.size_of(path);
        let name = self.folder.host_path(path)?;
        if self.keeper.keep(name, size) {
            return Ok(());
        }
        self.folder.open(path)
    }
}
