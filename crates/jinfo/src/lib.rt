//! What an image of a JFFS2 flash tells of itself where nobody says its byte order or its block
//! size.
//!
//! It is built on `jscan` (the extents of a block) and `jline` (lines of text). The image is walked
//! as one block from address 0 to its end, once in each byte order; the order in which more headers
//! are good is the image's. It takes no memory, and time linear in the bytes.
//!
//! - `info_of` answers what is told as an `Info`; `put_info` puts its lines and answers the byte
//!   order.
//! - `container_of` says whether the file begins as something else does that holds an image or is
//!   another file system; `put_container_note` puts the note on it.
#![tactic(auto)]

mod census;
mod container;
pub mod examples;
mod highest;
mod info;
mod kinds;
pub mod laws;
mod lines;
mod marks;
mod nodes;
mod sizes;
mod storage;

pub use crate::census::Census;
pub use crate::container::{Container, container_of, put_container_note};
pub use crate::highest::Highest;
pub use crate::info::{Info, info_of};
pub use crate::lines::{InfoFault, put_info};
pub use crate::nodes::NodeCounts;
pub use crate::sizes::SizeRange;
pub use crate::storage::DataCounts;
