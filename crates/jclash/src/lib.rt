//! Nodes of which some clash: which of them stay, and which are left out.
//!
//! It is built on `jmount` (what a clash is), `jscan` (the nodes of an image) and `jnode`. Of nodes
//! in order of their addresses `without_clashing` leaves out each that one of a higher address
//! clashes with, as Linux takes the one of highest address. It promises the crate above that no two
//! of those that stay clash, and that all stay where none clash. `clash_below` tells where the other
//! node is of a clash at which a mount stops.
//!
//! `specs/Parting.antt` says which nodes stay, and `laws` what follows from it. `specs/Lowest.antt`
//! says which node is the other one.
#![tactic(auto)]

mod copying;
mod highest;
mod key;
pub mod laws;
mod lowest;
mod parting;
mod sameness;

pub use crate::lowest::clash_below;
pub use crate::parting::{LeftOut, Parted, without_clashing};
