//! Tests of `jinfo`: images with what is told of each, what files begin as, and sinks that fail.

mod containers;
mod growth;
mod infos;
mod rows;
mod sinks;
mod vectors;
