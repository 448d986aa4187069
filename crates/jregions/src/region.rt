//! The regions of a file that have nodes.

use jinfo::SizeRange;
use jnode::Endian;

/// A part of a file that has nodes.
#[derive(Clone, Copy, Debug, PartialEq, Eq)]
pub struct Region {
    /// How many bytes of the file lie before it.
    pub from: u32,
    /// How many bytes lie before its end.
    pub to: u32,
    /// The byte order of its nodes.
    pub order: Endian,
    /// The sizes that its blocks may have, if that is known.
    pub sizes: Option<SizeRange>,
}

/// The first regions of a file, at most sixteen.
#[derive(Debug, Drop)]
pub struct Regions {
    pub first: Vec<Region>,
    /// Whether the file has more.
    pub more: bool,
}
