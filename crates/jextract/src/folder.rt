//! The folder of the host that is filled.

ghost use Rattle.std.specs.Prelude.{◌≡◌, [], List, Option, IfOk};
ghost use Rattle.jextract.specs.Cells.{AddsCells, Cells, Fails, bytes_written, skipped};
ghost use Rattle.jextract.specs.Folders.{ReportsMore, AddsContent, AddsOne, Counts, Failures, IsEmptyIn, Made, Attributed, Directory, File, Link, Symlink, counted_if};
ghost use Rattle.jextract.specs.declared.folder.FolderFault.{FolderFault};

use thiserror::Error;

/// Whom a file is given to.
#[derive(Clone, Copy, Debug, PartialEq, Eq)]
pub struct Owner {
    pub uid: u32,
    pub gid: u32,
}

/// What an object has beside its bytes.
#[derive(Clone, Copy, Debug, PartialEq, Eq)]
pub struct Attributes {
    /// The low 12 bits of a mode: the permissions, and what `chmod` sets beside them. Where there
    /// is no owner, no bit of octal 6000 is set.
    pub mode: u32,
    /// The time of the last change, in seconds since 1970.
    pub mtime: u32,
    /// The time of the last reading, in seconds since 1970.
    pub atime: u32,
    /// None where whoever extracts is to own it.
    pub owner: Option<Owner>,
}

/// Why a folder did not do what it was asked for.
#[derive(Clone, Copy, Debug, PartialEq, Eq, Error)]
pub enum FolderFault {
    #[error("refused")]
    Refused,
    /// The host has no room for it.
    #[error("no space")]
    NoSpace,
    #[error("out of memory")]
    OutOfMemory,
}

/// A file of the host that takes its bytes from the first place on.
///
/// A place is written, or it is in a hole, which takes no room of the host's and reads as 0.
///
/// # Errors
/// As those of a folder. Nothing is known of the file then, but what it failed with: it is to be
/// given up.
pub trait FilledFile: Drop {
    /// What lies at each place so far, where it reports that.
    ghost cells: { Self → Option Cells };

    /// What it failed with last, if it failed.
    ghost fault: { Self → Option FolderFault };

    /// Writes these bytes at the places that follow.
    fn write(&mut self, bytes: &[u8]) -> Result<(), FolderFault>
        ensures adds { AddsCells (cells self.old) (cells self.new) (bytes_written bytes.now)
            result }
        ensures fails { Fails (fault self.old) (fault self.new) result };

    /// Leaves a hole of so many places.
    fn skip(&mut self, count: u64) -> Result<(), FolderFault>
        ensures adds { AddsCells (cells self.old) (cells self.new) (skipped count) result }
        ensures fails { Fails (fault self.old) (fault self.new) result };
}

/// A folder of the host that is filled.
///
/// A path is that of an object below it: names with a slash between two, and none in front. The
/// empty path is the folder itself. A call makes its object anew, and is refused where something
/// has that name.
///
/// # Errors
/// `Refused`: the host did not do it, and nothing is counted as made. `NoSpace`: the same, for want
/// of room, which the next call would not find either. `OutOfMemory`: nothing is made, and the host
/// was not at fault.
pub trait Folder: Drop {
    /// A file that was made and takes its bytes.
    type File: FilledFile;

    /// What was made in it, in order, where it reports that.
    ghost made: { Self → Option (List Made) };

    /// How often it refused, and how often it had no space.
    ghost failures: { Self → Failures };

    /// Makes an empty directory, into which whoever extracts may write.
    fn make_directory(&mut self, path: &str) -> Result<(), FolderFault>
        ensures adds { AddsOne (made self.old) (made self.new)
            (record { path = path.now; deed = Directory }) result }
        ensures counts { Counts (failures self.old) (failures self.new) result };

    /// Makes an empty file.
    fn make_file(&mut self, path: &str) -> Result<Self::File, FolderFault>
        ensures adds { AddsOne (made self.old) (made self.new)
            (record { path = path.now; deed = File }) result }
        ensures counts { Counts (failures self.old) (failures self.new) result }
        ensures empty { IfOk result
            (λ file. IsEmptyIn (made self.new) (Self.File.FilledFile.cells file)) };

    /// Takes back a file that has all its bytes, and gives it its attributes.
    fn finish_file(
        &mut self,
        path: &str,
        file: Self::File,
        attributes: Attributes,
    ) -> Result<(), FolderFault>
        ensures adds { AddsContent (made self.old) (made self.new) path.now
            (Self.File.FilledFile.cells file) attributes result }
        ensures counts { Counts (failures self.old) (failures self.new) result };

    /// Takes back a file that failed before it had all its bytes, and counts what it failed with.
    fn give_up_file(&mut self, path: &str, file: Self::File)
        ensures made { ReportsMore (made self.old) (made self.new) [] }
        ensures failures { failures self.new
            ≡ counted_if (Self.File.FilledFile.fault file) (failures self.old) };

    /// Makes a symlink with these attributes, as far as a symlink of the host has them.
    fn make_symlink(
        &mut self,
        path: &str,
        target: &str,
        attributes: Attributes,
    ) -> Result<(), FolderFault>
        ensures adds { AddsOne (made self.old) (made self.new)
            (record { path = path.now; deed = Symlink target.now attributes }) result }
        ensures counts { Counts (failures self.old) (failures self.new) result };

    /// Makes a further name of the file or symlink that was made at `first`.
    fn make_link(&mut self, path: &str, first: &str) -> Result<(), FolderFault>
        ensures adds { AddsOne (made self.old) (made self.new)
            (record { path = path.now; deed = Link first.now }) result }
        ensures counts { Counts (failures self.old) (failures self.new) result };

    /// Gives a directory its attributes, after all that lies in it was made.
    fn finish_directory(&mut self, path: &str, attributes: Attributes) -> Result<(), FolderFault>
        ensures adds { AddsOne (made self.old) (made self.new)
            (record { path = path.now; deed = Attributed attributes }) result }
        ensures counts { Counts (failures self.old) (failures self.new) result };
}
