//! Tests of `jdamage` through its public call: worked images with damage, with the lines on them
//! from the rules and not from the program's output, what is mounted with nodes that hide nothing
//! and without them, directories of several names, gaps, sinks that fail, and growths that are
//! refused.

mod compressed;
mod flips;
mod gaps;
mod growth;
mod missed;
mod several_names;
