//! Tests of `jcompact`: which nodes of an image matter, and which objects no names lead to. What
//! is wanted was written down by hand, from the rule.

mod growth;
mod kept;
mod reached;
