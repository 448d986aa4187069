//! What an extraction counts.

/// What an extraction counts of the objects of an image, each up to the greatest `u64`.
#[derive(Clone, Copy, Debug, PartialEq, Eq)]
pub struct Totals {
    /// How many were left out. Each of them is told.
    pub left_out: u64,
    /// How many lost the set-user-id or the set-group-id bit of their modes, as all do that are
    /// made without their owners.
    pub lost_bits: u64,
}
