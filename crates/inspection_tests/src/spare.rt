//! Tests of `jspare`: pages with their spare bytes, and the layouts of dumps.

mod dumps;
