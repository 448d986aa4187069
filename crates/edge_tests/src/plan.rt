//! What a host in memory has, and where its calls fail.

use crate::happened::To;
use jreport::Reason;

/// A stream: how it takes what is put, and how much of that it prints.
#[derive(Clone, Copy)]
pub struct Stream {
    /// The most bytes that it takes a call.
    pub most: usize,
    /// How many it takes before it fails.
    pub limit: usize,
    /// How many of those it prints before it fails.
    pub prints: usize,
    pub reason: Reason,
}

impl Stream {
    /// One that does not fail.
    pub const SOUND: Stream = Stream {
        most: usize::MAX,
        limit: usize::MAX,
        prints: usize::MAX,
        reason: Reason::Other,
    };
}

/// Where memory is wanted, and there is none.
#[derive(Clone, Copy, PartialEq, Eq)]
pub enum Lacking {
    Nowhere,
    Name,
    Bytes,
    Output,
}

/// A file, and where the calls of its host fail.
#[derive(Clone, Copy)]
pub struct Plan<'a> {
    pub name: &'a str,
    pub bytes: &'a [u8],
    /// Why it is not opened.
    pub closed: Option<Reason>,
    /// After how many bytes a read of it fails, and why.
    pub cut: Option<(usize, Reason)>,
    /// Another file, and its bytes. It is read to its end.
    pub other: Option<(&'a str, &'a [u8])>,
    pub lacking: Lacking,
    pub answers: Stream,
    pub errors: Stream,
}

impl<'a> Plan<'a> {
    /// A file, on a host where nothing fails.
    pub fn of(name: &'a str, bytes: &'a [u8]) -> Plan<'a> {
        Plan {
            name,
            bytes,
            closed: None,
            cut: None,
            other: None,
            lacking: Lacking::Nowhere,
            answers: Stream::SOUND,
            errors: Stream::SOUND,
        }
    }

    pub fn stream(&self, to: To) -> Stream {
        match to {
            To::Answers => self.answers,
            To::Errors => self.errors,
        }
    }

    /// The bytes of the other file, if it has this name.
    fn bytes_of_other(&self, name: &str) -> Option<&'a [u8]> {
        match self.other {
            Some((other, bytes)) if name == other => Some(bytes),
            _ => None,
        }
    }

    /// Why the file of a name is not opened; none where it is.
    pub fn refusal(&self, name: &str) -> Option<Reason> {
        if name == self.name {
            self.closed
        } else if self.bytes_of_other(name).is_some() {
            None
        } else {
            Some(Reason::NotFound)
        }
    }

    /// The bytes of the file of a name, and where a read of it fails.
    pub fn file(&self, name: &str) -> (&'a [u8], Option<(usize, Reason)>) {
        match self.bytes_of_other(name) {
            Some(bytes) => (bytes, None),
            None => (self.bytes, self.cut),
        }
    }
}
