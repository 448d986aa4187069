//! Why not all damage is told.

ghost use Rattle.std.specs.Prelude.{◌≡◌};
ghost use Rattle.jdamage.specs.declared.fault.DamageFault.TheVariants as fault;

use std::alloc::AllocError;
use thiserror::Error;

/// Why not all damage is told.
#[derive(Clone, Copy, Debug, PartialEq, Eq, Error)]
pub enum DamageFault {
    /// The sink failed, and took a beginning.
    #[error("the sink failed")]
    Output,
    /// Memory ran out, and nothing was put.
    #[error("out of memory")]
    OutOfMemory,
}

impl From<AllocError> for DamageFault {
    ghost from_gives = { λ _ e. e ≡ fault.OutOfMemory };

    fn from(_error: AllocError) -> DamageFault {
        DamageFault::OutOfMemory
    }
}
