//! Tests of `jnode`: the vectors of the format, read and written, nodes that break one rule each,
//! and cuts that no check shows.

mod compressed;
mod growth;
mod headers;
mod nodes;
mod reading;
mod vectors;
mod weak;
mod writing;
