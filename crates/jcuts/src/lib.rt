//! What stands after a stop: for each node of what operations would write, the byte from which on
//! it stands whole.
//!
//! It is built on `jlog` (sessions that write operations, and what survives a stop of them) and
//! `jline` (lines of text). Its promise: an operation is planned as a session writes it, and
//! nothing of an image is written; a line goes out for each node, in order; the number of nodes
//! that stand from the address of a stop, or from one below it, is the number that the stop leaves
//! whole; and a node has a line on a weak cut exactly where it has one.
//!
//! What tells the lines of other sessions uses `standings_in`, `count_weak`, `put_nodes`, `put_end`
//! and `without_sink`.
//!
//! `specs/Standing.antt` says from where on a node stands, `specs/Planning.antt` what planning an
//! operation promises, `specs/Lines.antt` what the lines are, and `specs/Telling.antt` what is told
//! of the first operations on a base. `laws` has what follows, and `examples` has worked nodes.
#![tactic(auto)]

mod cuts;
pub mod examples;
mod held;
pub mod laws;
mod lines;
mod planning;
mod standing;
pub mod through_laws;

pub use crate::cuts::{Counts, CutsFault, count_weak, put_cuts};
pub use crate::held::Held;
pub use crate::lines::{StepNode, Telling, put_end, put_nodes};
pub use crate::planning::without_sink;
pub use crate::standing::{Standing, standings_in};
