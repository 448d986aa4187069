//! Commands that read files which a listing names, or a file that is not held in memory, and make
//! none: what each does with the host, and what it answers.
//!
//! `specs/Named.antt` says how the files of a listing are measured and read, `specs/Scanning.antt`
//! what `check --scan` prints of a file that it does not hold in memory.
#![tactic(auto)]

pub mod commands;
pub mod cuts;
pub mod files_host;
pub mod laws;
pub mod named;
pub mod scan;
pub mod stream_host;
