//! `update`: a device's image, extended as it is; and `build --compress`, which is that of an image
//! without a byte.
//!
//! `specs/Commands.antt` has their acts, `specs/Updating.antt` the steps of both: what is judged,
//! and what goes to the file that is made. `specs/Laws.antt` says what is true of them. A listing's
//! text whose files were read before goes by `texts`.
#![tactic(auto)]

pub mod asked;
pub mod commands;
pub mod laws;
pub mod making;
pub mod printing;
pub mod texts;
pub mod updated;
