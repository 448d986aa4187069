//! The geometry of a flash, and why an image is not scanned.

ghost use Rattle.std.specs.Prelude.{◌≡◌};
ghost use Rattle.jscan.specs.Image.{is_block_size, greatest_image};
ghost use Rattle.jscan.specs.declared.geometry.ScanFault.TheVariants as fault;

use std::alloc::AllocError;

/// The least size of a block, in bytes.
pub const LEAST_BLOCK: u32 = 4096;

/// The greatest size of a block, in bytes.
pub const GREATEST_BLOCK: u32 = 4_194_304;

/// The greatest length of an image, in bytes.
pub const GREATEST_IMAGE: usize = 268_435_456;

/// How a flash is divided: into blocks of this many bytes each.
#[derive(Clone, Copy, Debug, PartialEq, Eq)]
pub struct Geometry {
    pub block: u32,
}

impl Geometry {
    /// Whether blocks of this size are read: whole words, from 4 KiB to 4 MiB.
    pub fn is_readable(&self) -> bool
        ensures { result ≡ is_block_size self.now.block }
    {
        LEAST_BLOCK <= self.block && self.block <= GREATEST_BLOCK && self.block % 4 == 0
    }
}

/// Why an image is not scanned.
#[derive(Clone, Copy, Debug, PartialEq, Eq, thiserror::Error)]
pub enum ScanFault {
    /// The block size is not read.
    #[error("C1 BlockSize")]
    BlockSize,
    /// The image is longer than `GREATEST_IMAGE`.
    #[error("C2 TooLarge")]
    TooLarge,
    /// A node that may not be skipped has a type that is not known.
    #[error("C3 Incompatible at {addr:08x} type {nodetype:04x}")]
    Incompatible { addr: u32, nodetype: u16 },
    /// A sound node holds compressed data.
    #[error("C4 Compressed at {addr:08x} compr {compr}")]
    Compressed { addr: u32, compr: u8 },
    #[error("C5 OutOfMemory")]
    OutOfMemory,
}

impl From<AllocError> for ScanFault {
    ghost from_gives = { λ _ e. e ≡ fault.OutOfMemory };

    fn from(_error: AllocError) -> ScanFault {
        ScanFault::OutOfMemory
    }
}
