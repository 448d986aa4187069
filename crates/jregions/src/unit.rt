//! What a unit of a file holds.

use jnode::Endian;

/// What 4096 bytes of a file hold.
#[derive(Clone, Copy, Debug, PartialEq, Eq)]
pub(crate) enum UnitKind {
    /// Bytes of nodes of this order.
    Nodes(Endian),
    /// Bytes of 0xFF alone.
    Erased,
    /// Anything else.
    Foreign,
}
