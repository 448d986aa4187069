//! Where the nodes of an image lie: a text with a line for each block, or a picture of them.
//!
//! It is built on `jscan` (the extents of a block) and `jline` (lines of text). The caller hands in
//! the addresses of the nodes that are kept, as `jcollect` finds them, and for a picture the paths
//! of objects. Neither call takes memory; each walks the image once, in time n log n.
//!
//! - `put_map` puts the text: how many bytes of each block are live, superseded, obsolete, damaged
//!   and free, with a bar that shows them, and a line of totals.
//! - `put_picture` puts the same as SVG, with a title for each node; `push_path_name` makes the
//!   texts of paths that it shows there.
//!
//! `specs/ByteKinds.antt` says which kind each byte is of, `specs/MapText.antt` what the text is,
//! `specs/Picture.antt` and `specs/Places.antt` what the picture is. `laws` has what holds of every
//! map, `examples` has worked ones.
#![tactic(auto)]

mod bar;
mod columns;
pub mod examples;
mod fault;
mod kind;
pub mod laws;
mod map;
mod picture;
mod places;
mod rects;
mod tally;
mod texts;

pub use crate::fault::MapFault;
pub use crate::kind::ByteKind;
pub use crate::map::put_map;
pub use crate::picture::put_picture;
pub use crate::places::{Paths, push_path_name};
pub use crate::tally::Tally;
