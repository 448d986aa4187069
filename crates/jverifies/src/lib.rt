//! `verify`: what an image and a folder of the host differ in.
//!
//! It is built on `jpacks` (the image that is made of a folder), here in memory, and on `jedge` and
//! `jdiff` (the lines on two mounts). `specs/Making.antt` says what is made in memory,
//! `specs/Verifying.antt` has the act, `specs/VerifyLaws.antt` what is true of it.
#![tactic(auto)]

pub mod commands;
pub mod comparing;
pub mod laws;
pub mod making;
pub mod verifying;
