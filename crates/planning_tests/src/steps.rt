//! Worked operations: the steps or the refusal of each, from the rules of the format and not from
//! the program's output.
//!
//! `trees` has the file systems that they work on, `lines` writes operations and answers as lines
//! of text, `plan_tests` has the tables, `page_tests` those by larger pages, `device_tests` has
//! kinds and numbers of devices, `index_tests` what an index shows and how it goes on, and `growth`
//! what stands after a growth that is refused.

mod device_tests;
mod growth;
mod index_tests;
mod lines;
mod page_tests;
mod plan_tests;
mod taking;
mod trees;
