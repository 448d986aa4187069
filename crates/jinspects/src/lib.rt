//! Commands that look into an image through its compression and make nothing: `check
//! --decompress`, `map`, `history` and `cat --ino`. What each does with the host, and what it
//! answers.
//!
//! `specs/ThroughVerdict.antt` says what is printed of a mount through the compression,
//! `specs/Live.antt` which nodes are live on a map, `specs/ShownPaths.antt` which paths its picture
//! shows, `specs/Former.antt` which objects a path ever named,
//! `specs/Recalling.antt` what an object was. `specs/Inspecting.antt` has the act
//! of each command.
#![tactic(auto)]

pub mod check;
pub mod commands;
mod former;
pub mod history;
pub mod laws;
pub mod live;
pub mod map;
pub mod paths;
pub mod recalling;
pub mod refusal;
pub mod survey;
pub mod tracing;
pub mod verdict;
