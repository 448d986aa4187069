//! What was there: each node of an image, and what became of it.
//!
//! It is built on `jcompact` (which nodes matter, which objects are reached), `jscan` (the extents
//! of an image), `jnode` (the fields of compressed nodes) and `jline` (lines of text). The caller
//! hands in a mount and its nodes with their addresses.
//!
//! - `words_of` finds the word of each node: live, superseded, deleted, a deletion, or unreached.
//! - `put_history` puts a line for each node, in order of addresses, with its word and all its
//!   fields, and a line of totals; or for the nodes of some objects or of a `Period` alone. It takes
//!   no memory.
//!
//! `specs/NodeWords.antt` has the words, `specs/HistoryText.antt` the text, and
//! `specs/NewestEntries.antt` what is known of names while nodes are taken. `laws` has what holds of
//! every history, `examples` has worked ones.
#![tactic(auto)]

pub mod examples;
mod fault;
mod fields;
mod history;
pub mod laws;
mod lines;
mod newest;
mod period;
mod telling;
mod totals;
mod word;
mod words;

pub use crate::fault::HistoryFault;
pub use crate::history::put_history;
pub use crate::period::Period;
pub use crate::totals::Totals;
pub use crate::word::{NodeWord, Words};
pub use crate::words::words_of;
