//! Images of the nodes that matter: what an offline garbage collector writes.
//!
//! It is built on `jcompact` (which nodes of an image matter), `jlog` (where nodes go, and what
//! goes out before them) and `jthrough` (mounts of images with compressed nodes). Its promise to
//! the crate above: the nodes go out from the start of an erased flash on, each with the bytes that
//! it has in the image, in the order of their addresses. So the new image has just the nodes that
//! matter and no findings, and shows the same tree; compressed nodes keep their form.
//!
//! `plan_of` finds the nodes, and answers each fault that can be known before a byte goes out; then
//! only the sink can fail in `put`. `compact_into` does both. `plan_through` is the same of an
//! image that was mounted through its compression, and `compact_through` mounts it too.
//! `plan_apart` and `compact_apart` do the same where nodes clash: without each that one of a higher
//! address clashes with, as `jclash` parts them.
//!
//! `specs/Tiles.antt` says what is copied and what goes out for it, `specs/Collecting.antt` and
//! `specs/Through.antt` what follows for an image that mounts, and `specs/Planning.antt` and
//! `specs/PlanningThrough.antt` what refuses it; `laws` has what is proved of them.
//! `specs/Staying.antt` says which nodes stay where some clash, and `specs/PlanningApart.antt` what
//! goes out of these.
#![tactic(auto)]

mod apart;
mod collecting;
mod fault;
pub mod laws;
mod room;
mod staying;
mod through;
mod tile;
mod writing;

pub use crate::apart::{CollectedApart, PlanApart, compact_apart, plan_apart};
pub use crate::collecting::{Collected, Plan, compact_into, plan_of};
pub use crate::fault::{CollectFault, ThroughFault};
pub use crate::room::bytes_needed;
pub use crate::staying::{Stayed, mount_staying};
pub use crate::through::{compact_through, plan_through};
pub use crate::writing::put;
