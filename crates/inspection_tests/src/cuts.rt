//! Worked lines of `jcuts`: what is told of operations, from the rules of the format and not from
//! the program's output, and a session that goes on with another sink.
//!
//! `cuts` has operations that are planned and told, and sinks that fail; `growth` has growths that
//! are refused, and `sessions` the session.

mod cuts;
mod growth;
mod sessions;
