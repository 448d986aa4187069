//! Why an image does not mount, and why a path names nothing.

ghost use Rattle.std.specs.Prelude.{◌≡◌};
ghost use Rattle.jmount.specs.declared.fault.MountFault.TheVariants.{OutOfMemory};
ghost use Rattle.jmount.specs.Collected.{refusal_fault};

use jscan::ScanFault;
use std::alloc::AllocError;
use thiserror::Error;

/// Why an image does not mount.
#[derive(Clone, Copy, Debug, PartialEq, Eq, Error)]
pub enum MountFault {
    /// The block size is not read.
    #[error("M1 BlockSize")]
    BlockSize,
    /// The image is longer than `jscan::GREATEST_IMAGE`.
    #[error("M2 TooLarge")]
    TooLarge,
    /// A node of a type that is not known may not be skipped.
    #[error("M3 Incompatible at {addr:08x} type {nodetype:04x}")]
    Incompatible { addr: u32, nodetype: u16 },
    /// A sound node's data are compressed.
    #[error("M4 Compressed at {addr:08x} compr {compr}")]
    Compressed { addr: u32, compr: u8 },
    /// The node at this address contradicts one at a lower address.
    #[error("M5 Clash at {addr:08x}")]
    Clash { addr: u32 },
    /// The root is no directory.
    #[error("M6 RootKind")]
    RootKind,
    #[error("M7 OutOfMemory")]
    OutOfMemory,
}

impl From<AllocError> for MountFault {
    ghost from_gives = { λ _ fault. fault ≡ OutOfMemory };

    fn from(_error: AllocError) -> MountFault {
        MountFault::OutOfMemory
    }
}

impl From<ScanFault> for MountFault {
    ghost from_gives = { λ refusal fault. fault ≡ refusal_fault refusal };

    fn from(refusal: ScanFault) -> MountFault {
        match refusal {
            ScanFault::BlockSize => MountFault::BlockSize,
            ScanFault::TooLarge => MountFault::TooLarge,
            ScanFault::Incompatible { addr, nodetype } => {
                MountFault::Incompatible { addr, nodetype }
            }
            ScanFault::Compressed { addr, compr } => MountFault::Compressed { addr, compr },
            ScanFault::OutOfMemory => MountFault::OutOfMemory,
        }
    }
}

/// Why a path names nothing.
#[derive(Clone, Copy, Debug, PartialEq, Eq, Error)]
pub enum FindFault {
    /// The text is no path.
    #[error("BadPath")]
    BadPath,
    /// A name stands for no object.
    #[error("NotFound")]
    NotFound,
    /// An object before a name is no directory.
    #[error("NotDirectory")]
    NotDirectory,
}
