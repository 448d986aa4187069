//! What is told of a converted image, and what judging it leaves.

/// What is told of a converted image: how many of its nodes were decompressed, how many it has, and
/// its length in bytes.
#[derive(Clone, Copy, Debug, PartialEq, Eq)]
pub struct Converted {
    pub changed: u64,
    pub nodes: u64,
    pub bytes: u64,
}

/// What judging an image that is not refused leaves.
#[derive(Drop)]
pub struct Judged {
    pub told: Converted,
    /// What the data of its first compressed nodes stand for, one after another: they need not be
    /// decompressed again.
    pub held: Vec<u8>,
}
