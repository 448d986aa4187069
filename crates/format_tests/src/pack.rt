//! Tests of `jpack`: contents of several kinds and lengths, the kind of block and the length that
//! their streams have beside those of zlib, lengths that have no answer, one packer for all, and
//! refused growth. What comes out is by contract a stream of what went in; that it comes out, and
//! how short it is, is tested here.

mod contents;
mod growth;
mod sizes;
