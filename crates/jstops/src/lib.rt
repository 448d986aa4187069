//! What stands after a stop of a session on an image mounted through its compression: for each form
//! of the nodes of what operations would write, the byte from which on it stands whole.
//!
//! It is built on `jpacked` (a session that puts nodes in their own forms, or packed) and `jcuts`
//! (the byte from which on a node stands, and the lines). Its promise: an operation is planned as
//! such a session writes it, and nothing of an image is written; a line goes out for each form, in
//! order; and the number of forms that stand from the address of a stop, or from one below it, is
//! the number of steps that the stop leaves.
//!
//! `specs/Planned.antt` says what planning an operation promises, `specs/FormLines.antt` what is
//! told of the forms of several, and `specs/Stops.antt` what comes of all. `laws` has what follows.
#![tactic(auto)]

pub mod laws;
mod planned;
mod stops;

pub use crate::planned::StopsPlan;
pub use crate::stops::put_stops;
