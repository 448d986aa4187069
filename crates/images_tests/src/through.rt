//! Tests of `jthrough`: images whose nodes are compressed, what is found out of them and what they
//! mount as, and why others do not mount.
//!
//! `images` has how an image is written down. The tests are the tables of the other modules:
//! `mounts` has images that mount, `refusals` those that do not, `growth` memory that is refused.

mod growth;
pub(crate) mod images;
mod mounts;
mod refusals;
