//! What is left of objects: the versions of the nodes of each, and the size and SHA-256 of its
//! bytes.
//!
//! It is built on `jmount` (the file system of a list of nodes), `jnode` (the nodes), `jline`
//! (lines of text) and `sha2`. The caller hands in a mount, its nodes with their addresses, and the
//! numbers of the objects that it asks for.
//!
//! - `pasts_of` finds what is left of each of some objects, whether or not a name leads to it.
//! - `put_pasts` puts a line for each. It takes no memory.
//!
//! `specs/Pasts.antt` says what is left of an object, `specs/PastText.antt` has the lines, and
//! `specs/Spans.antt` what is known of versions while nodes are taken. `examples` has worked lines.
#![tactic(auto)]

mod digest;
pub mod examples;
mod finding;
mod lines;
mod past;
mod spans;

pub use crate::finding::pasts_of;
pub use crate::lines::put_pasts;
pub use crate::past::{Content, Past, Span};
