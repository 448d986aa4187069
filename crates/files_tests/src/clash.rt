//! Tests of `jclash` through its public calls: rows of nodes, with those that stay and those that
//! are left out by the rule, and images with the other node of each clash, and not from what the
//! calls answer.

mod others;
mod parts;
mod rows;
