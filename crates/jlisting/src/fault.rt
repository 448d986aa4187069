//! Why a listing is not read.

ghost use Rattle.std.specs.Prelude.{◌≡◌};

use crate::rule::Rule;
use std::alloc::AllocError;
use thiserror::Error;

/// A line that means nothing, counted from 1, and the first rule that it breaks.
#[derive(Clone, Copy, Debug, PartialEq, Eq, Error)]
#[error("line {line}")]
pub struct BadLine {
    pub line: usize,
    pub rule: Rule,
}

/// Why a listing is not read.
#[derive(Clone, Copy, Debug, PartialEq, Eq, Error)]
pub enum ListingFault {
    /// The first line that means nothing.
    #[error("P2 Listing {0}")]
    Line(BadLine),
    /// A growth was refused.
    #[error("P6 OutOfMemory")]
    OutOfMemory,
}

impl From<AllocError> for ListingFault {
    ghost use Rattle.jlisting.specs.declared.fault.ListingFault.TheVariants.{OutOfMemory};

    ghost from_gives = { λ _ e. e ≡ OutOfMemory };

    fn from(_fault: AllocError) -> Self {
        ListingFault::OutOfMemory
    }
}
