//! Why an entry is not added.

ghost use Rattle.std.specs.Prelude.{◌≡◌};
ghost use Rattle.jname.specs.declared.fault.NameFault.TheVariants.{OutOfMemory};

use std::alloc::{AllocError, AllocFailed};
use thiserror::Error;

/// Why an entry is not added.
#[derive(Clone, Copy, Debug, PartialEq, Eq, Error)]
pub enum NameFault {
    /// Another entry of the same directory, name and version has other contents.
    #[error("E1 Clash")]
    Clash,
    #[error("E2 OutOfMemory")]
    OutOfMemory,
}

impl From<AllocError> for NameFault {
    ghost from_gives = { λ _ fault. fault ≡ OutOfMemory };

    fn from(_error: AllocError) -> NameFault {
        NameFault::OutOfMemory
    }
}

impl<T: Drop> From<AllocFailed<T>> for NameFault {
    ghost from_gives = { λ _ fault. fault ≡ OutOfMemory };

    fn from(_error: AllocFailed<T>) -> NameFault {
        NameFault::OutOfMemory
    }
}
