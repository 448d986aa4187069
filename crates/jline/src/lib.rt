//! Lines and words of text: a buffer that takes no memory, how numbers and names are spelled, and
//! how words are read.
//!
//! `unescape` reads a word in which `\x` and two hexadecimal digits are one byte, and `unhex` one
//! that is pairs of hexadecimal digits. Both take digits in either case, one buffer, and time
//! linear in the word. What `put_word` puts, `unescape` reads back.
//!
//! It is built on `jnode` (names with an erased tail, and how a node is damaged). Its promise to
//! the crates above: what a call leaves in a line is that line's definition; a name goes out
//! escaped, or a beginning of it and a fault of the sink; and what a word is read as are the bytes
//! that it stands for, or that it stands for none.
//!
//! `specs/Words.antt` says how numbers and names are spelled, `specs/Paths.antt` how paths are,
//! `specs/Damages.antt` what damages are called, and `specs/Read.antt` what a word stands for.
#![tactic(auto)]

mod damage;
mod digits;
mod escapes;
mod fault;
mod line;
mod pairs;
mod paths;
mod spelling;
mod texts;
mod words;

pub use crate::damage::damage_name;
pub use crate::escapes::{put_escaped, put_in_line, put_word};
pub use crate::fault::WordFault;
pub use crate::line::{LineBuffer, MAX_LINE};
pub use crate::pairs::unhex;
pub use crate::paths::put_path;
pub use crate::texts::put_text;
pub use crate::words::unescape;
