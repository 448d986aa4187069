//! A session that packs: a log that goes on from an image mounted through its compression, and puts
//! each node compressed where that is shorter, or each in its own form.
//!
//! It is built on `jlog` (where nodes go, what goes out for them, and what a stop leaves) and
//! `jpack` (bytes compressed). Its promise to the layer above is that of a session of `jlog`, over
//! the forms of nodes: an operation is accepted as a whole before a byte of it is put, by the
//! lengths of the forms that go out; and a stop at any byte loses no step whose form is whole.
//!
//! What a session does beside finding places is for other sessions too: `plan`, `choose_by` and
//! `needed` before a byte is put, `write_form` and `push_place` while nodes are put, `start_at`,
//! `index_and_buffer` and `contents_len` where a session begins.
//!
//! `specs/Forms.antt` says which forms are chosen, `specs/Writing.antt` what is put for them, and
//! `specs/View.antt` what a session promises.
#![tactic(auto)]

mod accepting;
mod choice;
mod content;
mod packing;
mod planning;
mod regular;
mod room;
mod session;
mod start;
mod stream;
mod writing;

pub use crate::accepting::plan;
pub use crate::choice::NodeForms;
pub use crate::content::contents_len;
pub use crate::packing::Packing;
pub use crate::planning::{Chosen, choose_by, form_len};
pub use crate::room::needed;
pub use crate::session::{PackingSession, index_and_buffer};
pub use crate::start::start_at;
pub use crate::stream::Stream;
pub use crate::writing::{push_place, write_form};
