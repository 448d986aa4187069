//! What is told in all.

/// How many nodes are damaged, how many paths they hide, each by itself, how many names have no
/// object, and how many gaps are in files that a path leads to.
#[derive(Clone, Copy, Debug, PartialEq, Eq)]
pub struct Totals {
    pub damaged: usize,
    pub paths: u64,
    pub missing: usize,
    pub gaps: usize,
}
