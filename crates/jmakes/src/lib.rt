//! Files that a command makes: `build` and `append`, and what the others that make one stand on.
//!
//! `specs/Making.antt` says how a file is opened, what goes out to it, and how it takes its name;
//! `specs/Writing.antt` how an image is written, `specs/Commands.antt` the act of each command.
#![tactic(auto)]

pub mod asked;
pub mod base_note;
pub mod commands;
pub mod emitting;
pub mod ending;
pub mod host;
pub mod keeping;
pub mod laws;
pub mod notes;
pub mod numbered;
pub mod reporting;
pub mod texts;
pub mod wanted;
pub mod written;
