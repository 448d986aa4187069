//! Why a folder is not read.

ghost use Rattle.std.specs.Prelude.{◌≡◌};

use crate::reason::Reason;
use std::alloc::{AllocError, AllocFailed};
use thiserror::Error;

/// What a call of a folder fails with.
#[derive(Clone, Copy, Debug, PartialEq, Eq, Error)]
pub enum FolderFault {
    #[error("the host refused it")]
    Refused,
    /// What was asked for is no UTF-8.
    #[error("no text")]
    NoText,
    /// It is the file that the listing is written to.
    #[error("the listing itself")]
    Output,
    #[error("out of memory")]
    OutOfMemory,
}

impl From<AllocError> for FolderFault {
    ghost use Rattle.jfolder.specs.declared.fault.FolderFault.TheVariants.{OutOfMemory};

    ghost from_gives = { λ _ fault. fault ≡ OutOfMemory };

    fn from(_error: AllocError) -> FolderFault {
        FolderFault::OutOfMemory
    }
}

impl<T: Drop> From<AllocFailed<T>> for FolderFault {
    ghost use Rattle.jfolder.specs.declared.fault.FolderFault.TheVariants.{OutOfMemory};

    ghost from_gives = { λ _ fault. fault ≡ OutOfMemory };

    fn from(_error: AllocFailed<T>) -> FolderFault {
        FolderFault::OutOfMemory
    }
}

/// Why a folder is not read.
#[derive(Clone, Copy, Debug, PartialEq, Eq, Error)]
pub enum ReadFault {
    /// The folder itself is no directory that a listing can have.
    #[error("the folder can't be listed")]
    Folder(Reason),
    /// What is left out was not told.
    #[error("the notes failed")]
    Notes,
    #[error("out of memory")]
    OutOfMemory,
}

impl From<AllocError> for ReadFault {
    ghost use Rattle.jfolder.specs.declared.fault.ReadFault.TheVariants.{OutOfMemory};

    ghost from_gives = { λ _ fault. fault ≡ OutOfMemory };

    fn from(_error: AllocError) -> ReadFault {
        ReadFault::OutOfMemory
    }
}

impl<T: Drop> From<AllocFailed<T>> for ReadFault {
    ghost use Rattle.jfolder.specs.declared.fault.ReadFault.TheVariants.{OutOfMemory};

    ghost from_gives = { λ _ fault. fault ≡ OutOfMemory };

    fn from(_error: AllocFailed<T>) -> ReadFault {
        ReadFault::OutOfMemory
    }
}
