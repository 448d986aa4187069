//! The overlay of pieces of a file: each byte read is that of the highest version that covers it,
//! else 0.
//!
//! A file is written piece by piece, each with a version; pieces come in any order. `Overlay` says
//! what is visible at each place, `overlay` overlays all pieces of a file, and two types keep what
//! is visible: `PlainOverlay` a list of pieces, `FragOverlay` ordered intervals that do not
//! overlap.
//!
//! Built on `flashbase` for `Part`, a piece's bytes. `specs/Overlays` has the definition that
//! contracts cite, `laws` what follows from it.
#![tactic(auto)]

mod all;
mod frag;
mod interval_map;
pub mod laws;
mod layout;
mod overlays;
mod piece;
mod plain;

pub use all::overlay;
pub use frag::FragOverlay;
pub use overlays::Overlay;
pub use piece::{Body, Piece};
pub use plain::PlainOverlay;
