//! Tests of `jjson` through its public calls: each kind of line of each command, and texts that
//! come in pieces and go to sinks that take little or fail.

mod lines;
mod objects;
mod texts;
