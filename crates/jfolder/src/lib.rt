//! A folder of the host as a listing, which `build` makes an image from.
//!
//! `read_folder` walks through a folder, a directory before what lies in it and each name in byte
//! order, and follows no symlink. What a listing cannot say is left out, and a line of the notes
//! tells it. A regular file that was met by another path is a link to that path. `put_listing` puts
//! the text of the tree, in the lines that `jlisting` reads: first `attr` of the folder itself,
//! then each object. The section LISTINGS of the manual page `docs/jffs2_image.5` tells what they
//! are.
//!
//! It is built on `jlisting` (what the lines of a listing mean) and `jline` (escapes). Its promise:
//! the text is read as the actions that make the tree.
//!
//! `specs/Text.antt` has the text of a tree, `specs/Actions.antt` the actions that make it,
//! `specs/Order.antt` the order of paths, `specs/Trees.antt` what items make up a tree,
//! `specs/Links.antt` which of them are links, `specs/Notes.antt` what is told of what is left out,
//! and `specs/Reasons.antt` why. `laws` has the law.
#![tactic(auto)]

mod fault;
mod found;
mod host;
pub mod laws;
mod notes;
mod order;
mod reading;
mod reason;
mod settings;
mod text;
mod tree;
mod words;

pub use crate::fault::{FolderFault, ReadFault};
pub use crate::found::{Options, Owner};
pub use crate::host::{HostFolder, Looked, Names};
pub use crate::reading::{FolderTree, read_folder};
pub use crate::reason::Reason;
pub use crate::text::put_listing;
pub use crate::tree::{Attributes, Item, What};
