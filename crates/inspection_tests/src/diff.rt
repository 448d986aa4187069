//! Tests of `jdiff` through its public call: worked pairs of trees, with the lines on them from the
//! rules and not from the program's output, and sinks that fail.

mod growth;
mod pairs;
