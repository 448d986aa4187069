//! Worked logs: what sessions put, where they refuse, and what mounts after a cut, from the rules
//! of the format and not from the program's output.
//!
//! `sessions` runs operations onto an image, `cut_tests` mounts what a stop at each byte leaves
//! (`stopped`) and compares it with a plain file system, `sink_tests` lets a sink fail,
//! `start_tests` has where a session begins, `refusal_tests` where it may not, `place_tests` single
//! nodes, and `growth` memory that is refused. Where nodes go, byte for byte, tests/listings.py shows.

mod cut_tests;
mod growth;
mod place_tests;
mod refusal_tests;
pub mod sessions;
mod sink_tests;
mod start_tests;
mod stopped;
