//! Why the host refuses a file, as far as it tells.
ghost use Rattle.std.specs.Prelude.{◌≡◌};
ghost use Rattle.std.specs.IoError.{error_kind};
ghost use Rattle.jreport.specs.Reasons.{reason_of_kind};

use std::io;
use std::io::ErrorKind;

/// Why the host refuses a file.
#[derive(Clone, Copy, Debug, PartialEq, Eq)]
pub enum Reason {
    NotFound,
    NoPermission,
    IsDirectory,
    NotDirectory,
    Exists,
    NoSpace,
    ReadOnly,
    TooLarge,
    TooManyLinks,
    BadName,
    Busy,
    /// It ends before the part of it that is asked for.
    EndsEarly,
    /// None of these, of which nothing is said.
    Other,
}

/// A file that can't be opened, made or read, by its name, and why.
#[derive(Clone, Copy, Debug, PartialEq, Eq)]
pub struct Unopened<'a> {
    pub name: &'a str,
    pub reason: Reason,
}

impl Reason {
    /// The reason that an error of the host has.
    pub fn of(error: &io::Error) -> Reason
        ensures { result ≡ reason_of_kind (error_kind error.now) }
    {
        Reason::of_kind(error.kind())
    }

    /// The reason that an error of this kind has.
    pub fn of_kind(kind: ErrorKind) -> Reason
        ensures { result ≡ reason_of_kind kind }
    {
        match kind {
            ErrorKind::NotFound => Reason::NotFound,
            ErrorKind::PermissionDenied => Reason::NoPermission,
            ErrorKind::IsADirectory => Reason::IsDirectory,
            ErrorKind::NotADirectory => Reason::NotDirectory,
            ErrorKind::AlreadyExists => Reason::Exists,
            ErrorKind::StorageFull | ErrorKind::QuotaExceeded => Reason::NoSpace,
            ErrorKind::ReadOnlyFilesystem => Reason::ReadOnly,
            ErrorKind::FileTooLarge => Reason::TooLarge,
            ErrorKind::FilesystemLoop => Reason::TooManyLinks,
            ErrorKind::InvalidFilename => Reason::BadName,
            ErrorKind::ExecutableFileBusy | ErrorKind::ResourceBusy => Reason::Busy,
            _ => Reason::Other,
        }
    }
}
