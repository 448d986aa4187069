//! Why no image of the nodes that matter is written.

ghost use Rattle.std.specs.Prelude.{◌≡◌};
ghost use Rattle.jcollect.specs.declared.fault.CollectFault.TheVariants as fault;

use jthrough::ViewFault;
use std::alloc::AllocError;
use thiserror::Error;

/// Why no image of the nodes that matter is written. Each stands before those after it: of several
/// the first is answered.
#[derive(Clone, Copy, Debug, PartialEq, Eq, Error)]
pub enum CollectFault {
    /// A node of the image says that it may not be written.
    #[error("S3 ReadOnly")]
    ReadOnly,
    /// Blocks of this size are not written (from 8 KiB to 4 MiB are), there is no block, or the
    /// flash is larger than 256 MiB.
    #[error("S7 Geometry")]
    Geometry,
    /// A block does not hold the node after a clean marker.
    #[error("Z2 TooLong at {addr:08x}")]
    TooLong { addr: u32 },
    /// So many blocks have no room for the nodes.
    #[error("S2 Full needed {needed} free {free}")]
    Full { needed: u64, free: u64 },
    /// The sink failed.
    #[error("S4 Sink")]
    Sink,
    #[error("S5 OutOfMemory")]
    OutOfMemory,
}

impl From<AllocError> for CollectFault {
    ghost from_gives = { λ _ e. e ≡ fault.OutOfMemory };

    fn from(_error: AllocError) -> CollectFault {
        CollectFault::OutOfMemory
    }
}

/// Why no image of the nodes that matter is written of one that may have compressed nodes.
#[derive(Clone, Copy, Debug, PartialEq, Eq, Error)]
pub enum ThroughFault {
    /// The image does not mount through its compression.
    #[error("{0}")]
    Unmounted(ViewFault),
    /// It mounts through, and its nodes do not go out.
    #[error("{0}")]
    Uncollected(CollectFault),
}
