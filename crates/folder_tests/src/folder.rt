//! Tests of `jfolder`, by a folder in memory: listings written out by hand, what is left out, a
//! host that refuses each call in turn, notes and sinks that fail, and refused growth.

mod folders;
mod growth;
mod memory;
mod trees;
