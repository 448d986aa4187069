//! The edge of the program: what each command does with the host, and what it answers.
//!
//! A command is a function over a `Host`, and its contract is one act: a relation of the calls of
//! the host that come of it and of its answer. `specs/Acts.antt` says what an act is and how acts
//! are put together, `specs/Calls.antt` which calls there are, `specs/Commands.antt` the act of
//! each command, as its manual page has it.
#![tactic(auto)]

pub mod cat;
pub mod check;
pub mod commands;
pub mod damage;
pub mod diff;
pub mod fault;
pub mod found;
pub mod host;
pub mod info;
pub mod laws;
pub mod list;
mod missing;
pub mod mounting;
pub mod parting;
pub mod reading;
pub mod reporting;
pub mod spare;
pub mod streams_host;
pub mod subject;
