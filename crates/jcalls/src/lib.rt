//! The calls that are given to C: one function an export of `jffs2_c`, over slices, numbers and
//! rows.
//!
//! Each call is one-shot: an image goes in, and the answer into memory of the caller. It answers 0,
//! or the number of a fault, and then the caller's memory is as it was, but for `fault`, which says
//! where the fault is, and for `needed` at 9.
//!
//! It is built on `jmount` and `jthrough` (the file system of an image, or the one through its
//! compression), `jscan`, `jinfo` and `jconvert`, and on `jcollect`, `jbuild`, `jcuts` and
//! `jupdate`, which write images. `specs/Told.antt` says which number stands for which fault,
//! `specs/Shown.antt` which file system an image shows, `specs/Looking.antt` what `stat`, `read` and
//! `tree` answer, `specs/Made.antt` what `decompress` and `compress` do, `specs/Counting.antt` and
//! `specs/InfoRows.antt` what `check` and `info` do. `specs/Works.antt` says which operations a
//! listing has, and `specs/Appending.antt`, `specs/Updating.antt`, `specs/Cutting.antt` and
//! `specs/Compacting.antt` what the calls of these names do.
#![tactic(auto)]

mod appending;
mod compacting;
mod converting;
mod cutting;
mod finding;
mod finding_row;
mod given;
mod giving;
mod how;
mod keeping;
mod looking;
mod many;
mod mounting;
mod named;
mod naming;
mod node_row;
mod reading;
mod rows;
mod texts;
mod told;
mod updating;
mod working;

pub use crate::appending::{Written, append};
pub use crate::compacting::compact;
pub use crate::converting::{compress, decompress};
pub use crate::cutting::cuts;
pub use crate::finding::{findings, nodes};
pub use crate::finding_row::FindingRow;
pub use crate::given::{FileRow, Files};
pub use crate::how::How;
pub use crate::keeping::{close, find, object, open, read_kept};
pub use crate::looking::{check, crc, info};
pub use crate::many::read_many;
pub use crate::naming::tree;
pub use crate::node_row::NodeRow;
pub use crate::reading::{Place, read, stat};
pub use crate::rows::{Counted, Entry, InfoRow, Needed, Request, Stat};
pub use crate::texts::{check_text, tree_text};
pub use crate::told::{Fault, OK, SMALL, TOO_LARGE, Told};
pub use crate::updating::{DeviceWork, update};
pub use crate::working::{Target, Work};
pub use jheld::Handle;
