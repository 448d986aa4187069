//! Writing nodes into the log of an image: where they go, what goes out for them, and what a write
//! that stopped leaves.
//!
//! It is built on `jnode` (the written form of nodes, and what a cut of one can be seen as),
//! `jscan` (what is sighted in a block) and `jmount` (the file system that nodes make). Its
//! promise: after a cut at any byte an image has the nodes of its base and those of the new ones
//! that stand whole, a beginning of them, and nothing else but markers and damage.
//!
//! `specs/Places.antt` says where nodes go, `specs/Output.antt` what goes out, `specs/Left.antt`
//! what may be left of it and which nodes stand whole, `specs/Done.antt` what a session has done
//! and what survives of that. `laws` has what follows from them, and `examples` has worked logs.
#![tactic(auto)]

pub mod examples;
mod fault;
pub mod laws;
mod node;
mod place;
mod putting;
mod report;
mod resuming;
mod room;
mod session;
mod start;
mod writing;

pub use crate::fault::SessionFault;
pub use crate::node::{node_len, node_of, write_node};
pub use crate::place::{place_after, place_of};
pub use crate::putting::{put_erased, put_gap, put_node};
pub use crate::report::{Applied, Place, RunReport};
pub use crate::resuming::{page_fits, resume_at};
pub use crate::room::free;
pub use crate::session::Session;
pub use crate::start::{Flash, Start};
pub use crate::writing::{Blocks, Stop};
