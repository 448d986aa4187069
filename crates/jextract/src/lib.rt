//! The tree of a mounted image, written into a folder of the host.
//!
//! It is built on `jmount` (the file system) and `jline` (how names are told). Its promise to the
//! program: whatever the image says, each path at which something is made has names that lead into
//! the folder (none of them is empty, `.` or `..`, or has a slash), each directory on the way to it
//! was made before, and no path is made twice: so nothing is made through a symlink.
//!
//! A file takes room of a disk for its data alone: where a block of 4,096 bytes is all zero, a hole
//! is left.
//!
//! `specs/Folders.antt` says what a folder is made to hold, `specs/Cells.antt` which places of a
//! file are written, `specs/Paths.antt` which paths a host may have, `specs/Outcomes.antt` what
//! comes of each object, and `specs/Extracts.antt` what the call does. `laws` has what follows.
#![tactic(auto)]

mod contents;
mod extracting;
mod fault;
mod folder;
pub mod laws;
mod making;
mod notes;
mod parts;
mod paths;
mod reason;
mod totals;

pub use crate::extracting::{extract, extract_part};
pub use crate::fault::ExtractFault;
pub use crate::folder::{Attributes, FilledFile, Folder, FolderFault, Owner};
pub use crate::parts::{Part, PartFault, part_at};
pub use crate::paths::push_names;
pub use crate::reason::Reason;
pub use crate::totals::Totals;
