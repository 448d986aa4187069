//! Worked listings: what goes out for them on a base and what is told, from the rules of the format
//! and not from the program's output.
//!
//! `runs` takes a text to its bytes and its report, `built` has listings on an empty base,
//! `appended` on others, `parted` the files that listings name, `paged` larger pages, `full` what
//! would hold an operation that is refused for want of room, `sinks` sinks that fail or take
//! little, `started` what goes out from where a log goes on, and `growth` memory that is refused.

mod appended;
mod built;
mod full;
mod growth;
mod paged;
mod parted;
mod runs;
mod sinks;
mod started;
