//! Tests of `jconvert`: images made by another program, and what they are decompressed to.

mod apart;
mod compressing;
mod converting;
mod faults;
mod vectors;
