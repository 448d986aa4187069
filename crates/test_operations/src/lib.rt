//! What the tests and benchmarks of operations share: operations as lines of text, whether a step
//! can be taken, and a plain file system.
#![tactic(auto)]

mod lines;
mod plain;
mod ready;

pub use crate::lines::{BY, By, CUT_LINES, op_of, ops_of};
pub use crate::plain::{Change, Plain};
pub use crate::ready::is_ready;
