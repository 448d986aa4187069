//! What is reported of an image: its report, the verdict on its mount, the listing of its tree, and
//! the content of its files.
//!
//! It is built on `jline` (lines of text), `jscan` (the extents of an image), `jmount` (the file
//! system that its nodes make) and `jclash` (the other node of a clash); faults of `jlog` and
//! `jlisting` are among those that it spells. Its promise to the program: what goes to a sink is the
//! text of the bytes that were read, and a fault says why no more of it did.
//!
//! `specs/Report.antt` says what the report of an image is, `specs/Verdict.antt` what is said of
//! its mount, `specs/TreeText.antt` what the listing is, `specs/Content.antt` which bytes a path
//! names, `specs/Notes.antt` what is told of findings beside them, `specs/Refusal.antt` which fault
//! says that an image does not mount, `specs/Faults.antt` how faults are spelled, and
//! `specs/Advice.antt` and `specs/Sentences.antt` what is noted after them. `specs/Puts.antt` (the
//! report) and `specs/WholeImage.antt` (`check`, `cat` and `ls`) say what the calls do of an image
//! in memory, `specs/Stream.antt` what they do of one that is read block by block. `report_examples` and
//! `fault_examples` have worked examples, and `tree_laws` laws of the listing.
#![tactic(auto)]

mod advice;
mod blocks;
mod cause;
mod converted;
mod extraction_notes;
pub mod fault_examples;
mod faults;
mod files;
mod findings;
mod forms;
mod image_fault;
mod met;
mod named_notes;
mod no_nodes;
mod notes;
pub mod path_laws;
mod paths;
mod reason;
mod refusal;
mod report;
pub mod report_examples;
mod report_fault;
mod sentences;
mod session_fault;
mod stream;
mod tree;
pub mod tree_laws;
mod tree_walk;
mod verdict;
mod whole_image;

pub use crate::advice::put_fault_and_note;
pub use crate::cause::{Cause, Limit, Plan, Refused, cause_of};
pub use crate::converted::{put_compressed, put_decompressed};
pub use crate::extraction_notes::{attribute_count, put_left_attributes, put_notes};
pub use crate::faults::{ProgramFault, fault_text};
pub use crate::files::content;
pub use crate::findings::{Found, found_in, refuse_findings};
pub use crate::image_fault::ImageFault;
pub use crate::met::MetDirectories;
pub use crate::named_notes::put_named_notes;
pub use crate::no_nodes::{others_if_none, put_none_notes, refuse_no_nodes};
pub use crate::notes::{noted, put_note};
pub use crate::paths::{names_of_path, path_word};
pub use crate::reason::{Reason, Unopened};
pub use crate::refusal::mount_or_tell;
pub use crate::report::{Lines, put_report, scan_lines};
pub use crate::report_fault::ReportFault;
pub use crate::stream::stream_lines;
pub use crate::tree::{push_number, put_tail, write_mode};
pub use crate::tree_walk::{put_subtree, tree_lines};
pub use crate::verdict::{put_mounted, verdict_lines};
pub use crate::whole_image::{image_check, image_file, image_tree};
