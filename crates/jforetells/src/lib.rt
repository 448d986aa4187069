//! `cuts` of an image that is mounted through its compression, of nodes that are compressed, or of
//! `update`: what it does with the host, and what it answers.
//!
//! It is built on `jstops` (what stands after a stop, told of forms), `jhalts` (the same of what
//! `update` writes) and `jreads` (the files that a listing names). Its promise: all that can be
//! refused is judged before anything is printed, but the operation of a line, behind what is told of
//! those before it; and no file is made.
//!
//! `specs/Foretelling.antt` has the acts, `specs/ForetoldTexts.antt` and `specs/UpdateTexts.antt`
//! what is printed.
#![tactic(auto)]

pub mod commands;
pub mod foretelling;
pub mod laws;
pub mod plan;
