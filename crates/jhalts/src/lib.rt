//! What stands after a stop of `update`: for each form of the nodes of what operations would write
//! into the openings of a device's image, the byte from which on it stands whole.
//!
//! It is built on `jdevice` and `jupdate` (which openings are taken, and a session that writes into
//! them) and `jstops` (the lines on forms of nodes). Its promise: an operation is planned as
//! `update` writes it, and nothing of an image is written; a line goes out for each form, in order,
//! with its address in the image; and the number of forms that stand from the address of a stop, or
//! from one below it, is the number of steps that the stop leaves.
//!
//! `specs/InShares.antt` says from where on forms stand in openings, `specs/InRow.antt` what
//! planning an operation promises, `specs/RowLines.antt` what is told of the forms of several, and
//! `specs/Halts.antt` what comes of all. `specs/Walk.antt` is how places and bytes are matched.
//! `laws` has what follows.
#![tactic(auto)]

mod halts;
pub mod laws;
mod planned;
mod walking;

pub use crate::halts::put_halts;
