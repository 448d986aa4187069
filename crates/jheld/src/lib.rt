//! A mount that is kept behind a pointer, for callers that know no type of Rattle.
//!
//! It is built on `jmount`. `specs/Owned.antt` says what a handle owns.
#![tactic(auto)]

mod held;
mod loose;

pub use crate::held::Handle;
