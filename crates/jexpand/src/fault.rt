//! Why an image is not converted.

use thiserror::Error;

/// Why an image is not converted. Each stands before those after it: of several the first is
/// answered, and of those that name an address the one of least address.
#[derive(Clone, Copy, Debug, PartialEq, Eq, Error)]
pub enum ConvertFault {
    /// The block size is not read.
    #[error("M1 BlockSize")]
    BlockSize,
    /// The image is longer than `jscan::GREATEST_IMAGE`.
    #[error("M2 TooLarge")]
    TooLarge,
    /// A node of a type that is not known may not be skipped.
    #[error("M3 Incompatible at {addr:08x} type {nodetype:04x}")]
    Incompatible { addr: u32, nodetype: u16 },
    /// A node's data are compressed by a method that is not read.
    #[error("M4 Compressed at {addr:08x} compr {compr}")]
    Compressed { addr: u32, compr: u8 },
    /// A node's data do not give as many bytes as its range has.
    #[error("Z1 Data at {addr:08x}")]
    Data { addr: u32 },
    /// A block does not hold the expanded node after a clean marker.
    #[error("Z2 TooLong at {addr:08x}")]
    TooLong { addr: u32 },
    /// A node says that the image may not be written.
    #[error("S3 ReadOnly")]
    ReadOnly,
    /// Blocks of this size are not written.
    #[error("S7 Geometry")]
    Geometry,
    /// The greatest flash of such blocks has no room for the nodes.
    #[error("S2 Full needed {needed} free {free}")]
    Full { needed: u64, free: u64 },
    /// The sink failed.
    #[error("S4 Sink")]
    Sink,
    #[error("S5 OutOfMemory")]
    OutOfMemory,
}
