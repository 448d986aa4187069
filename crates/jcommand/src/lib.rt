//! The command line of `jffs2_image`: the words that it takes, what they ask for, and how a run
//! ends.
//!
//! It is built on clap, whose matches are a function of the command and the words, on `jnode` for
//! the byte order of an image and on `jscan` for its geometry. Its promise to the program: what a
//! request asks for is that function of the words, and each refusal is due.
//!
//! - `commands`: the program, its subcommands, and the words that each one takes;
//!   `specs/Commands.antt` has the same as clap sees it.
//! - `help` and `epilogues`: the texts of the help.
//! - `parsed`: commands, with what they are given; `matching`: the command that clap's matches ask
//!   for, `specs/Parsed.antt`.
//! - `request`: a command whose options may be found in its image, `specs/Requests.antt`.
//! - `command_line`: `asked`, which takes the words to a `Request`, or to the text that answers
//!   them; `specs/Refused.antt`.
//! - `blocks`: the number of blocks of a flash, where it is left out; `specs/Blocks.antt`.
//! - `outcome`: how the program ends, and its exit status; `specs/Status.antt`.
//! - `laws`: worked command lines.
#![tactic(auto)]

mod blocks;
mod command_line;
mod commands;
mod epilogues;
mod help;
pub mod laws;
mod matching;
mod outcome;
mod parsed;
mod region;
mod request;
mod sizes;

pub use crate::blocks::blocks_asked;
pub use crate::command_line::{RequestFault, asked};
pub use crate::outcome::{Outcome, status};
pub use crate::parsed::{
    Appending, Building, Check, Command, Compaction, Comparison, Conversion, Cuts, CutsThrough,
    Examination, Extraction, FileContent, FolderListing, Image, InodeContent, Mapping, NodeHistory,
    Options, Owner, Packing, Placing, Target, TreeListing, UpdateCuts, Updating, Verification,
};
pub use crate::request::Request;
