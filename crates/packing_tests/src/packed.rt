//! Sessions that pack, in the tail of an image: what they put, and what mounts through after a cut,
//! against a plain file system.
//!
//! `sessions` runs operations onto an image, `cases` are operations and their steps, `cut_tests`
//! mounts what a stop at each byte leaves, `plain_tests` puts nodes in their own forms, `sink_tests`
//! has sinks that fail or are replaced, `held_tests` counts contents, and `growth` refuses memory.

pub mod cases;
pub mod cut_tests;
pub mod growth;
mod held_tests;
mod plain_tests;
pub mod sessions;
mod sink_tests;
