//! Tests of `jextract`: trees that are written into a folder that keeps a record, and hostile ones.

mod growth;
mod holes;
mod images;
mod making;
mod parts;
mod recorder;
mod refusals;
mod trees;
