//! Where two mounted images differ.
//!
//! It is built on `jmount` (mounted images), `jreport` (the walk of `ls`, and faults) and `jline`
//! (lines of text). Its promise to the program: what goes to a sink is a line for each path at
//! which the two trees differ, in order; there is none exactly where both have the same entries,
//! bytes included.
//!
//! `specs/Entries.antt` says what a tree lists, `specs/Changes.antt` which lines there are on a
//! path, `specs/Pairing.antt` how the entries of two trees stand side by side,
//! `specs/Differing.antt` what the call puts, `specs/Walking.antt` how it walks, and
//! `specs/Compared.antt` what is remembered on the way. `laws` has what follows.
#![tactic(auto)]

mod bytes;
mod compared;
mod comparing;
mod found;
pub mod laws;
mod line;
mod number;
mod pair;
mod spot;
mod walk;

pub use crate::comparing::Comparing;
pub use crate::walk::put_differences;
