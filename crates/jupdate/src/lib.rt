//! A session that goes on in openings: in any blank blocks of an image mounted through its
//! compression, and in the rests of begun ones.
//!
//! It is built on `jopenings` (what is left of a row of openings after nodes, and what survives
//! there) and `jpacked` (which forms are chosen for nodes). Its promise to the layer above is that
//! of a packing session in the tail of an image, with the row in the place of an address: an
//! operation is accepted as a whole before a byte of it is put, by the lengths of the forms that go
//! out; and a stop at any byte loses no step whose form is whole.
//!
//! The sink gets the bytes of one opening after the other: `stretches` tells how many went out to
//! each, and `Place` the address on the flash of each node.
//!
//! `specs/Rows.antt` says where the next node goes in a row, `specs/Writing.antt` what is put for
//! nodes, `specs/SessionIn.antt` what an operation and a run do, `specs/View.antt` what a session
//! promises, and `specs/Updates.antt` a law of updates.
#![tactic(auto)]

mod accepting;
pub mod laws;
mod room;
mod row;
mod session;
mod writing;

pub use crate::session::OpeningSession;
