//! Why an image does not mount through its compression.

ghost use Rattle.std.specs.Prelude.{◌≡◌};
ghost use Rattle.jthrough.specs.declared.fault.ViewFault.TheVariants.{OutOfMemory};
ghost use Rattle.jthrough.specs.View.{mount_fault_viewed, scan_fault_viewed};

use jmount::MountFault;
use jscan::ScanFault;
use std::alloc::AllocError;
use thiserror::Error;

/// Why an image does not mount through its compression. Of those that name an address the one of
/// least address is answered.
#[derive(Clone, Copy, Debug, PartialEq, Eq, Error)]
pub enum ViewFault {
    /// The block size is not read.
    #[error("M1 BlockSize")]
    BlockSize,
    /// The image is longer than `jscan::GREATEST_IMAGE`.
    #[error("M2 TooLarge")]
    TooLarge,
    /// A node of a type that is not known may not be skipped.
    #[error("M3 Incompatible at {addr:08x} type {nodetype:04x}")]
    Incompatible { addr: u32, nodetype: u16 },
    /// A node's data are compressed by a method that is not read.
    #[error("M4 Compressed at {addr:08x} compr {compr}")]
    Compressed { addr: u32, compr: u8 },
    /// A node's data do not give as many bytes as its range has.
    #[error("Z1 Data at {addr:08x}")]
    Data { addr: u32 },
    /// A block does not hold the expanded node after a clean marker, or the contents up to this
    /// node are more bytes than [`GREATEST_CONTENTS`](crate::GREATEST_CONTENTS).
    #[error("Z2 TooLong at {addr:08x}")]
    TooLong { addr: u32 },
    /// The node at this address contradicts one at a lower address.
    #[error("M5 Clash at {addr:08x}")]
    Clash { addr: u32 },
    /// The root is no directory.
    #[error("M6 RootKind")]
    RootKind,
    #[error("M7 OutOfMemory")]
    OutOfMemory,
}

impl From<AllocError> for ViewFault {
    ghost from_gives = { λ _ fault. fault ≡ OutOfMemory };

    fn from(_error: AllocError) -> ViewFault {
        ViewFault::OutOfMemory
    }
}

impl From<ScanFault> for ViewFault {
    ghost from_gives = { λ refusal fault. fault ≡ scan_fault_viewed refusal };

    fn from(refusal: ScanFault) -> ViewFault {
        match refusal {
            ScanFault::BlockSize => ViewFault::BlockSize,
            ScanFault::TooLarge => ViewFault::TooLarge,
            ScanFault::Incompatible { addr, nodetype } => ViewFault::Incompatible {
                addr,
                nodetype,
            },
            ScanFault::Compressed { addr, compr } => ViewFault::Compressed { addr, compr },
            ScanFault::OutOfMemory => ViewFault::OutOfMemory,
        }
    }
}

impl From<MountFault> for ViewFault {
    ghost from_gives = { λ why fault. fault ≡ mount_fault_viewed why };

    fn from(why: MountFault) -> ViewFault {
        match why {
            MountFault::BlockSize => ViewFault::BlockSize,
            MountFault::TooLarge => ViewFault::TooLarge,
            MountFault::Incompatible { addr, nodetype } => ViewFault::Incompatible {
                addr,
                nodetype,
            },
            MountFault::Compressed { addr, compr } => ViewFault::Compressed { addr, compr },
            MountFault::Clash { addr } => ViewFault::Clash { addr },
            MountFault::RootKind => ViewFault::RootKind,
            MountFault::OutOfMemory => ViewFault::OutOfMemory,
        }
    }
}
