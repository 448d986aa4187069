//! Units that lie together.

use jnode::Endian;

/// The units of one file system: from one up to, but not including, another.
#[derive(Clone, Copy, Debug, PartialEq, Eq)]
pub(crate) struct Span {
    pub order: Endian,
    pub from: u32,
    pub to: u32,
}
