//! A device's image, extended as it is: operations run in its openings, in memory, and the image
//! with what they make is put to a sink.
//!
//! It stands on `jupdate`, whose session writes into openings, and on `jopenings`, which puts an
//! image with bytes there. It says which openings are taken, holds what a run did until a sink is
//! there, and has the line that tells of it. So all that can be refused is known before a file is
//! made.
//!
//! `specs/Taken.antt` says which openings are taken, `specs/Run.antt` what a run did,
//! `specs/Line.antt` what is told of it, `specs/Blank.antt` how many blank blocks it leaves, and
//! `specs/Laws.antt` what stays of the image.
#![tactic(auto)]

mod blank;
pub mod laws;
mod line;
mod placing;
mod running;
mod taken;

pub use crate::blank::{blank_left, reserve_on};
pub use crate::line::put_updated;
pub use crate::placing::put_device;
pub use crate::running::{DevicePlan, DeviceRun, run_on_device};
pub use crate::taken::openings_taken;
