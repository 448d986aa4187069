//! The byte order and the block size that an image shows, where it was read with others.
//!
//! It is built on `jinfo` (what an image tells of itself) and `jline` (lines of text).
//!
//! - `hint_of` answers what an image shows, if it was read with another order or size.
//! - `size_to_read` says which size of blocks serves to read an image.
//! - `put_hint` puts the note that names the options.
//!
//! `specs/Hints.antt` says what each of them answers.
#![tactic(auto)]

pub mod examples;
mod hint;
mod line;

pub use crate::hint::{Hint, hint_of, size_to_read};
pub use crate::line::put_hint;
