//! The commands that work with a folder of the host: `listing` and `extract`; and a folder that is
//! read whole, for `pack`.
//!
//! It is built on `jedge` (acts of a host), `jfolder` (a folder as a listing) and `jextract` (a
//! tree that is made in a folder). Each command is a function over a `FolderHost`, and its contract
//! is one act.
//!
//! `specs/Filling.antt`, `specs/Reading.antt` and `specs/Keeping.antt` have the calls of the host
//! and what is answered by them, `specs/Commands.antt` the act of each command, and
//! `specs/Laws.antt` what is true of them.
#![tactic(auto)]

pub mod commands;
pub mod extracting;
mod filling;
mod first;
pub mod host;
pub mod keeper;
pub mod keeping;
pub mod kept;
pub mod laws;
pub mod listing;
pub mod reading;
