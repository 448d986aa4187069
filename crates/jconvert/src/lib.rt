//! Images whose data are compressed, decompressed; and images compressed.
//!
//! It is built on `jexpand` (the expanded nodes of an image), `jlog` (where nodes go, and what goes
//! out for them) and `jpack` (bytes compressed). Its promise to the program: what goes out are
//! exactly the nodes of the image, compressed ones expanded, in the order of their addresses, or
//! nodes that expand to them; and all that can be refused is refused before a byte is put. What is
//! decompressed to judge an image is held, up to a limit, and not decompressed again to write it.
//!
//! `specs/Converting.antt` says which image goes out decompressed, and why none does,
//! `specs/Apart.antt` which goes out without nodes that clash, `specs/Compressing.antt` which goes
//! out compressed.
#![tactic(auto)]

mod apart;
mod compressing;
mod converted;
mod holding;
mod judging;
mod keeping;
pub mod laws;
mod locating;
mod packing;
mod writing;

pub use crate::apart::{Apart, decompress_apart, part};
pub use crate::compressing::{compress, judge_plain, write_packed};
pub use crate::converted::{Converted, Judged};
pub use crate::judging::{HELD_MOST, judge};
pub use crate::keeping::write_nodes;
pub use crate::writing::{decompress, decompressed, write_converted};
pub use jclash::{LeftOut, Parted};
pub use jexpand::ConvertFault;
