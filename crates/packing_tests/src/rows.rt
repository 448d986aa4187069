//! Sessions that pack, in the blank blocks of an image, wherever these lie: what mounts through
//! after a cut, against a plain file system.
//!
//! `grounds` are images with blank blocks, `sessions` runs operations into these, `updates` are
//! operations onto compressed bases and their steps, `cut_tests` mounts what a stop at each byte
//! leaves, `sink_tests` lets a sink fail at each call, and `growth` refuses memory.

mod cut_tests;
mod grounds;
mod growth;
mod sessions;
mod sink_tests;
mod updates;
