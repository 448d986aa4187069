//! A log that is written to the blank blocks of an image, wherever they lie, in the order of their
//! addresses, as if they lay side by side.
//!
//! It is built on `jlog` (what a log is, and what a write to the tail of an image leaves) and
//! `jview` (what an image shows through its compression). It says the same of a row of blocks:
//! after a cut at any byte the image mounts through as the file system after the steps whose nodes
//! are whole, and every block that is not of the row is as it was.
//!
//! - `Row`: the blank blocks of an image, where they begin on the flash that has them last, and
//!   where each address lies. Finding them takes one `u32` of memory a block.
//! - `block_part`, `is_blank_block`: a block of an image, and whether it is blank.
//! - `put_with_row`: an image with bytes in its row, put block by block without a copy of it, and
//!   how much of it went out if the sink failed; `written_len` says how long it is then.
//! - `put_behind`, `put_clear`, `put_part`: bytes, erased bytes or a part of a block, put behind
//!   others of the same call.
//! - `laws`, each the contract of a function that does nothing, and `examples`, a worked row.
//!
//! No call here writes the log itself: the packing session of `jpacked` does.
//!
//! `specs/Row.antt` says what the row is, `specs/RowLeft.antt` what may be left of a write to it,
//! `specs/Written.antt` what is put, and `specs/HeadlineInRow.antt` what survives. Nodes make the
//! same file system in whatever order they come (`specs/OrderLaws.antt`), and the nodes of an image
//! are those of its blocks (`specs/RowLaws.antt`). So a log in the row is one in the tail of the
//! flash with its blank blocks last (`specs/Arranged.antt`), of which `jlog` says what survives.
#![tactic(auto)]

pub mod examples;
pub mod laws;
mod placing;
mod row;

pub use crate::placing::{RowOnFlash, put_behind, put_clear, put_part, put_with_row, written_len};
pub use crate::row::{Row, block_part, is_blank_block};
