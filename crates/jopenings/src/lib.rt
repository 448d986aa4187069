//! Writing to a row of openings again and again: what is left of it, and what survives.
//!
//! It is built on `jrests` (which blocks may be written, where nodes go in a row of openings, what
//! a stop leaves there). A writer needs no more than the row that is left: more nodes go out as if
//! the row had begun there. While they do, all nodes before them stand whole, whatever the byte
//! where writing stops. No call here writes the log itself; `jrow` puts the parts of a block.
//!
//! - `Stretch`: that so many bytes went out to an opening.
//! - `put_with_stretches`: an image with what went out to openings of it, put block by block
//!   without a copy of it, and how much of it went out if the sink failed; `len_with_stretches`
//!   says how long it is then.
//! - `erased_with_stretches`: how many blocks are erased in that image, by `jreserve`'s definition.
//! - `laws`, each the contract of a function that does nothing.
//!
//! `specs/After.antt` says what is left of a row, and `specs/AfterLaws.antt` what goes on there.
//! `specs/Done.antt` says what a log has done in a row, operation by operation, and that it
//! survives; `specs/Exist.antt` that a stop always leaves some image; and `specs/FrontLaws.antt`
//! that a row of blank blocks is a case of it. `specs/Stretches.antt` says what is put, and
//! `specs/StretchLaws.antt` that it is what a stop leaves, and `specs/Placed.antt` what survives
//! there.
#![tactic(auto)]

mod erased;
pub mod laws;
mod placing;

pub use crate::erased::erased_with_stretches;
pub use crate::placing::{Stretch, StretchesOnFlash, len_with_stretches, put_with_stretches};
