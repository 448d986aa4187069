//! The blank blocks that Linux keeps in reserve for its garbage collector, and the note that fewer
//! are left.
//!
//! It is built on `jscan` (blocks, parts) and `jline` (lines).
//!
//! - `linux_reserve` says how many blocks Linux keeps on a flash.
//! - `is_erased` says whether all bytes of a part are 0xFF.
//! - `put_reserve_note` puts the note.
//!
//! `specs/Erased.antt` says which blocks are erased, `specs/Reserve.antt` how many Linux keeps, and
//! `specs/Note.antt` what the note is.
#![tactic(auto)]

mod erased;
pub mod examples;
mod note;
mod reserve;

pub use crate::erased::is_erased;
pub use crate::note::put_reserve_note;
pub use crate::reserve::linux_reserve;
