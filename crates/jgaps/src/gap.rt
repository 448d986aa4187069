//! A gap.

/// A maximal range of bytes of a regular file below its size that no sound node has: from the byte
/// `from` on, and without the byte `to`.
#[derive(Clone, Copy, Debug, PartialEq, Eq)]
pub struct Gap {
    pub ino: u32,
    pub from: u32,
    pub to: u32,
}
