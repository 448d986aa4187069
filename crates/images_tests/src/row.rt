//! Tests of `jrow`: the blank blocks of an image, and bytes that are put into them.
//!
//! `images` has how an image is written down. `rows` has which blocks are found and where their
//! addresses lie, `placing` what is put, and `growth` memory that is refused.

mod growth;
mod images;
mod placing;
mod rows;
