//! Tests of `jspare`: sources over dumps, and the line on a layout.

mod pages;
mod regions;
