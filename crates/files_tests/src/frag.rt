//! Tests of `jfrag`: what is visible after pieces in any order of arrival, in both kinds of
//! overlay.

mod growth;
mod orders;
mod pieces;
