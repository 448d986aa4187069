//! The regions of a dump of a whole flash that hold file systems.
//!
//! It is built on `jscan` (the extents of a block) and `jinfo` (what an image tells of itself). The
//! file is taken in units of 4096 bytes. Units that have nodes of one byte order are one region, if
//! fewer than sixteen foreign ones lie between them. Two file systems of one order with nothing but
//! erased bytes between them are one region.
//!
//! - `regions_of` finds the regions: `Region` is one of them, `Regions` the first sixteen.
//! - `put_regions` puts their lines.
#![tactic(auto)]

pub mod examples;
pub mod laws;
mod lines;
mod region;
mod regions;
mod span;
mod spans;
mod touched;
mod unit;
mod units;

pub use crate::lines::put_regions;
pub use crate::region::{Region, Regions};
pub use crate::regions::regions_of;
