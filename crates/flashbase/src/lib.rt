//! The ground of flash images: checksums, padding, erased runs, parts of a block, sources and
//! sinks.
//!
//! It is built on no other crate of the repository. What it promises those above it: `crc` is the
//! remainder taken bit by bit, `load` gives the rest of a source, and a `put_all` that fails took
//! exactly a beginning.
//!
//! - `crc`, `crc_from`: the checksum that nodes bear, of bytes, whole or going on from another.
//! - `pad4`, `erased_run`: lengths up to whole words, and how much of flash is still erased.
//! - `Part`: a slice and after it the bytes that an image lacks, seen as one list.
//! - `Source` and `load`, `Sink` and `put_all`: devices that give and take bytes and count their
//!   failures; `FromReader` and `FromWriter` make them of std's readers and writers.
//! - The laws of the definitions in `specs/`, each the contract of a function that does nothing.
#![tactic(auto)]

mod bytes;
mod checksum;
mod laws;
mod part;
mod sink;
mod source;
mod tables;

pub use crate::bytes::{erased_run, pad4};
pub use crate::checksum::{crc, crc_from};
pub use crate::laws::{
    below_is_below, crc_goes_on, crc_is_word, each_below_is_each, erased_run_is_longest,
    get_of_tabled, greatest_is_greatest, known_checksums, known_lengths, newest_is_newest,
    newest_of_one_more, pad4_is_least,
};
pub use crate::part::{Part, PartBytes};
pub use crate::sink::{FromWriter, PutFault, Sink, put_all};
pub use crate::source::{DeviceFault, FromReader, LoadFault, Source, load};
