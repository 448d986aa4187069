//! The nodes of a JFFS2 image, read from bytes and written as bytes, in either byte order.
//!
//! The layer is built on `flashbase`: checksums, padding and parts of a block. It promises the next
//! one that an entry or inode node is answered exactly for a tile that reads as that node, and that
//! what is written reads back.
//!
//! - `header_at` and `header_in` find the good header at the start of the rest of a block, which is
//!   a slice or a `Part` whose end the image lacks; `read_node` and `read_part` say what its node
//!   is seen as.
//! - `write_entry`, `write_inode`, `write_marker` and `write_padding` append the written form of a
//!   node; `marker_bytes` is that of the marker.
//! - `compressed_at` and `compressed_fields` give the fields and data of a node that is seen as
//!   compressed, and `write_compressed` appends one.
//! - `weak_cut` gives the least cut of a written node that no check shows.
//! - `Order` names the byte order, and `Endian` is that order as a value, which the definitions
//!   take.
//! - `laws` has what holds of the definitions themselves: round trips, torn nodes, worked examples.
//!
//! The place of a field is said once for the code, in `layout.rt`, and once for the definitions, in
//! `specs/Header.antt` and `specs/Reading.antt`.
#![tactic(auto)]

mod compressed;
mod header;
pub mod laws;
mod layout;
mod node;
mod order;
mod reading;
mod undo;
mod weak;
mod writing;

pub use crate::compressed::{compressed_at, compressed_fields, write_compressed};
pub use crate::header::{Header, header_at, header_in};
pub use crate::layout::{ENTRY_LEN, INODE_LEN, MARKER_LEN};
pub use crate::node::{CompressedNode, Damage, Dirent, Fill, InodeNode, NodeRef, Seen};
pub use crate::order::{Endian, Order};
pub use crate::reading::{read_node, read_part};
pub use crate::weak::weak_cut;
pub use crate::writing::{
    WriteFault, marker_bytes, write_entry, write_inode, write_marker, write_padding,
};
pub use flashbase::Part;
