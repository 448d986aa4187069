//! Building and extending images: a listing's operations run on a base, and what goes out for them.
//!
//! It is built on `jlisting` (listings of operations), `jlog` (sessions that write operations) and
//! `jline` (lines of text). Its promise to the program: the operations are those of the listing's
//! lines, with the bytes of the files that they name; what goes out is the base up to where writing
//! goes on, and then the nodes of the operations, which survive a stop of writing at any byte; and
//! the line that tells of it has the numbers of what was done.
//!
//! `specs/Operations.antt` says which operations a listing makes, `specs/Emitting.antt` what goes
//! out, `specs/Accepted.antt` what is told.
#![tactic(auto)]

mod accepted;
mod emitting;
mod host_files;
pub mod laws;
mod listed;
mod named_spans;
mod reading;
mod span;

pub use crate::accepted::put_accepted;
pub use crate::emitting::{EmitFault, Emitted, emit, emit_from};
pub use crate::host_files::HostFiles;
pub use crate::listed::operations;
