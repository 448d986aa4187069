//! Tests of `jreport`: worked images with what is printed of them, and sources and sinks that fail.
//! More images are in tests/hostile.py.

mod failures;
mod faults;
mod growth;
mod images;
mod listings;
mod reads;
mod sentences;
mod sinks;
mod streams;
