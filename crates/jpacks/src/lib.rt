//! `pack`: an image of a folder of the host, which is `listing` and `build` in one; and
//! `pack --compress`, which is `listing` and `build --compress`.
//!
//! It is built on `jfolders` (a folder that is read whole), `jmakes` (a listing's text that is
//! written) and `jupdates` (the same, compressed). `specs/Packing.antt` has the acts,
//! `specs/PackLaws.antt` and `specs/Held.antt` what is true of them.
#![tactic(auto)]

pub mod commands;
pub mod compressed;
pub mod laws;
pub mod packing;
