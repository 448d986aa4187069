//! Folders of the system: one that is filled, as `jextract` asks for it, and one that is read, as
//! `jfolder` does.
//!
//! It is built on `std::fs`. Its promise to the program is what the two traits say of each call.
//! What the host does in a call no contract can say; each is one call of `std::fs` on a path below
//! the folder, or a few on a file that is open, and none follows a symlink at the end of its path.
//! `docs/PROOFS.md` lists which of them no clause pins.
#![tactic(auto)]

mod file;
mod filled;
mod paths;
mod progress;
mod read;

pub use crate::file::HostFile;
pub use crate::filled::FilledFolder;
pub use crate::progress::Progress;
pub use crate::read::ReadFolder;
