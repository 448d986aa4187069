//! Why a file system is not extracted.

ghost use Rattle.std.specs.Prelude.{◌≡◌};
ghost use Rattle.jextract.specs.declared.fault.ExtractFault.TheVariants as fault;

use std::alloc::{AllocError, AllocFailed};
use thiserror::Error;

/// Why a file system is not extracted, or not to its end.
#[derive(Clone, Copy, Debug, PartialEq, Eq, Error)]
pub enum ExtractFault {
    /// The folder itself is not made. Nothing is.
    #[error("the folder is not made")]
    Folder,
    /// What is left out can't be told.
    #[error("the notes failed")]
    Notes,
    /// The host has no room for what is still to be made.
    #[error("no space")]
    NoSpace,
    #[error("out of memory")]
    OutOfMemory,
}

impl From<AllocError> for ExtractFault {
    ghost from_gives = { λ _ e. e ≡ fault.OutOfMemory };

    fn from(_error: AllocError) -> ExtractFault {
        ExtractFault::OutOfMemory
    }
}

impl<T: Drop> From<AllocFailed<T>> for ExtractFault {
    ghost from_gives = { λ _ e. e ≡ fault.OutOfMemory };

    fn from(_error: AllocFailed<T>) -> ExtractFault {
        ExtractFault::OutOfMemory
    }
}
