//! The system's files, streams and folders as the host of the acts.
//!
//! It is built on `std`, on `jhost` (folders of the system), and on the crates whose acts it is the
//! host of: `jedge`, `jreads`, `jmakes` and `jfolders`. `SystemHost` is all that the program needs
//! of it. It reports nothing of what the system did, so its history is `None`, and each of its
//! calls meets its act by what it answers.
//!
//! Each call of the system for which std has no words is in a function of its own:
//! `docs/TESTED.md` lists them.
#![tactic(auto)]

mod faults;
mod file_host;
mod files_host;
mod folder_host;
pub mod host;
pub mod making;
pub mod opener;
pub mod output;
mod replacing;
pub mod source;
pub mod stream_host;
mod streams_host;
