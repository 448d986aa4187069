//! How an image of a JFFS2 flash falls into blocks, tiles and extents, and what a scan of it gives.
//!
//! A block falls into tiles: a node's whole tile where there is a good header, and words between
//! (Woodhouse 2001; Linux, fs/jffs2/scan.c). `Tiles` goes over them. `Extents` goes over what a
//! report shows of a block: its nodes' tiles, each with what it is seen as, and the longest runs of
//! words of one kind. `Sightings` goes over the nodes' tiles of a whole image. None of them takes
//! memory, and all take time linear in their bytes. `scan` collects the nodes and findings of an
//! image, or answers its first refusal; `scan_to_refusal` gives the nodes in front of that refusal
//! too. `BlockReader` and `scan_stream` read a source block by block. `blank_from` finds the block
//! from which on a flash is blank, where writing may go on.
//!
//! It is built on `flashbase` (padding, erased runs, parts) and `jnode` (headers, and what a node
//! is seen as). Its promise to the crates above: the tiles given are the block's one tiling, the
//! extents are those tiles with each longest run as one, and the sightings are the nodes' tiles of
//! all blocks in the order of their addresses.
//!
//! `laws` has what holds of every tiling, of all extents of a block and of whole images, `examples`
//! has worked blocks.
#![tactic(auto)]

mod answer;
mod blank;
mod counting;
mod counts;
pub mod examples;
mod extent;
mod extents;
mod finding;
mod geometry;
mod image;
pub mod laws;
mod page;
mod parts;
mod scanning;
mod sightings;
mod stream;
mod tiles;

pub use crate::answer::{PartialScan, Scan};
pub use crate::blank::blank_from;
pub use crate::counting::scan_stream;
pub use crate::counts::Counts;
pub use crate::extent::{Extent, ExtentKind};
pub use crate::extents::Extents;
pub use crate::finding::{Finding, FindingKind};
pub use crate::geometry::{GREATEST_BLOCK, GREATEST_IMAGE, Geometry, LEAST_BLOCK, ScanFault};
pub use crate::image::ImageExtents;
pub use crate::page::Page;
pub use crate::parts::block_at;
pub use crate::scanning::{scan, scan_to_refusal};
pub use crate::sightings::Sightings;
pub use crate::stream::{BlockReader, StreamFault};
pub use crate::tiles::{Tile, TileKind, Tiles};
