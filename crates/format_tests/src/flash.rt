//! Tests of `flashbase`: values from outside, and devices that fail.

mod checksums;
mod growth;
mod parts;
mod sinks;
mod sources;
