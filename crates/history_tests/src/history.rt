//! Tests of `jhistory` through its public calls: worked images with a line for each node, from the
//! rules and not from the program's output, in both byte orders and through compression; and a sink
//! that fails.

mod images;
mod lines;
