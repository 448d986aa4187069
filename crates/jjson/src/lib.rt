//! The JSON of what the commands print: each line becomes an object on a line of its own.
//!
//! It is built on `jline` (how words are spelled and read). Its promise to the crates above: what
//! goes below is the JSON of the lines that have ended, or a beginning of it and a failure.
//!
//! `specs/Tables.antt` has the lines of each command, `specs/Shapes.antt` the object of a line by
//! its shape, `specs/Json.antt` how JSON is spelled, and `specs/Texts.antt` the JSON of a text.
//!
//! - `Lines` says whose lines a text has.
//! - `put_line` puts the JSON of a line.
//! - `JsonSink` takes a text in pieces, and puts the JSON of its lines.
#![tactic(auto)]

pub mod examples;
pub mod laws;
mod line;
mod lines;
mod members;
mod numbers;
mod part;
mod sink;
mod spelling;
mod strings;
mod table;
mod texts;
mod words;

pub use crate::line::put_line;
pub use crate::lines::Lines;
pub use crate::sink::JsonSink;
