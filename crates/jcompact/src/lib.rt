//! Which nodes of an image matter: an offline garbage collector.
//!
//! An image of which a device wrote for long has nodes that newer ones replaced, entries of names
//! that are gone, and objects that no name leads to. What is left without them is the same file
//! system.
//!
//! It is built on `jmount` (what nodes make), `jscan` (the nodes of an image), `jname` (live names)
//! and `jfrag` (pieces of a file). Its promise to the crate above: of the nodes of an image, those
//! that matter, in the order of their addresses. `kept_in` finds them in an image, `kept` among
//! nodes that are at hand; `unreached` finds the objects that no names lead to.
//!
//! `specs/Matters.antt` has the definition that contracts cite, `examples` its worked rows, `laws`
//! what follows from it. `specs/Compacted.antt` says what an image of just these nodes is.
//! `specs/Taking.antt` says what is known while nodes are taken one by one, from the highest version
//! down.
#![tactic(auto)]

mod covering;
pub mod examples;
mod image;
mod keeping;
pub mod laws;
mod ranks;
mod reaching;
mod taken;

pub use crate::image::kept_in;
pub use crate::keeping::kept;
pub use crate::reaching::unreached;
