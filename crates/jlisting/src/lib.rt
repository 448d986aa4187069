//! The listing of operations that `build` and `append` read: a text, one operation a line, such as
//! `mkdir 0755 /etc`.
//!
//! The section LISTINGS of the manual page `docs/jffs2_image.5` has all lines, and what their words
//! stand for.
//!
//! A listing is read in one pass, in time linear in its bytes. Its words are lent and not copied,
//! but for those with an escape and for HEX.
//!
//! It is built on `jsteps` (operations) and `jline` (words that stand for bytes). Its promise to
//! the program: `listing` answers the actions of the text with their lines, or the number of the
//! first line that means nothing and the first rule that it breaks.
//!
//! `specs/Words.antt` says what a word stands for, `specs/Listing.antt` what a line means and which
//! actions a text has, `specs/Broken.antt` which rule a line breaks. `laws` has what holds of
//! numbers and lines, and `examples` has worked listings.
#![tactic(auto)]

mod broken;
pub mod examples;
mod fault;
mod forms;
pub mod laws;
mod line;
mod lines;
mod operands;
mod reading;
mod rule;
mod split;
mod statement;
mod word_rules;
mod words;

pub use crate::fault::{BadLine, ListingFault};
pub use crate::line::{Action, FileName, Line};
pub use crate::lines::listing;
pub use crate::rule::{Rule, WordRule};
