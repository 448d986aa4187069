//! Tests of `jcompr`: the numbers of the methods, worked rows, streams of zlib, of liblzo2 and of a
//! packer of RTIME, of liblzma and of 7-Zip, whole, cut and changed, the edges of lengths, distances
//! and tables of codes, and refused growth. Expected values come from zlib, from liblzo2 and from a
//! model of RTIME, by tests/peers/vectors.py, and of LZMA by tests/peers/lzma.py.

mod answers;
mod growth;
mod lzma_vectors;
mod rows;
mod streams;
mod vectors;
