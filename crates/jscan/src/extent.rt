//! An extent of a block.

use jnode::Seen;

/// What is at an extent of a block.
#[derive(Drop)]
pub enum ExtentKind<'a> {
    /// A node's tile, and what it is seen as.
    Tiled(Seen<'a>),
    /// Words of 0xFF.
    Erased,
    /// Words that begin with the magic number of the other byte order.
    OtherOrder,
    /// Words of any other bytes.
    Dirt,
}

/// A node's tile, or a longest run of words of one kind.
#[derive(Drop)]
pub struct Extent<'a> {
    /// Where it begins, in bytes from the start of the image.
    pub addr: u32,
    /// Its length in bytes.
    pub len: u32,
    pub kind: ExtentKind<'a>,
}
