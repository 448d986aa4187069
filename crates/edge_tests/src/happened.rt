//! What happened to a host in memory: its calls, each with what came of it.

use jreport::Reason;

/// Where a text is printed.
#[derive(Clone, Copy)]
pub enum To {
    Answers,
    Errors,
}

/// A call, and what came of it.
#[derive(Drop)]
pub enum Happened<'a> {
    Opened(String),
    NotOpened(String, Reason),
    /// All of these bytes were read.
    Read(String, &'a [u8]),
    /// These were, and then reading ended.
    ReadPart(String, &'a [u8]),
    NotRead(String, &'a [u8], Reason),
    Printed(To, Vec<u8>),
    NotPrinted(To, Reason),
}
