//! A dump of NAND flash that has the spare bytes behind each page, and the image that it holds.
//!
//! A programmer, or `nanddump -o`, reads each page with its spare bytes (OOB): those of the flash's
//! own error correction, which are no part of the file system. It is built on `jinfo` (the nodes of
//! an image of which nothing is known).
//!
//! - `PageLayout` is the size of a page and of its spare bytes; `LAYOUTS` are the usual ones.
//! - `drop_spare` makes the image of a dump, in the dump's own memory.
//! - `PageSource` gives the same of a source, page by page.
//! - `Region` is the part of a file that is the image: an offset and a length, which do not count the
//!   spare bytes. `RegionSource` gives this part of a source, and refuses one that the file does not
//!   have.
//! - `spare_of` finds the layout of a dump by its whole nodes, `spare_shown` only if a node is
//!   damaged; `put_spare` puts the line on it.
#![tactic(auto)]

mod dropping;
pub mod examples;
mod finding;
pub mod laws;
mod layout;
mod line;
mod part;
mod region;
mod showing;
mod source;

pub use crate::dropping::drop_spare;
pub use crate::finding::spare_of;
pub use crate::layout::{LAYOUTS, PageLayout};
pub use crate::line::put_spare;
pub use crate::part::RegionSource;
pub use crate::region::Region;
pub use crate::showing::spare_shown;
pub use crate::source::PageSource;
