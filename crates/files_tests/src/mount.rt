//! Tests of `jmount` through its public calls: worked images, what they mount as, and why others do
//! not mount.
//!
//! `images` has how an image is written down, `facts` what is asked of a mounted one. The tests are
//! the tables of the other modules: `mounts` has small images, `calls` every call on one file
//! system, `refusals` the images that do not mount, `shapes` trees with their shape and without it,
//! `directories` where first names are.

mod calls;
mod directories;
mod facts;
mod growth;
pub(crate) mod images;
mod mounts;
mod refusals;
mod shapes;
