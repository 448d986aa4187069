//! What happened to a host, as one text.

use crate::happened::{Happened, To};
use std::alloc::{AllocError, Global};

/// A call on a stream.
fn word_of(to: To) -> &'static str {
    match to {
        To::Answers => "print",
        To::Errors => "say",
    }
}

/// A text that is printed is shown as it is, behind a line that says where it went.
fn put_text(text: &mut String, to: To, printed: &[u8]) -> Result<(), AllocError> {
    text.push_str(word_of(to))?;
    text.push_str("\n")?;
    text.push_str(str::from_utf8(printed).unwrap_or("no text\n"))
}

/// The line of a call that prints nothing.
fn line_of(alloc: Global, happened: &Happened<'_>) -> Result<String, AllocError> {
    match happened {
        Happened::Opened(name) => format!(in alloc; "open {name}\n"),
        Happened::NotOpened(name, reason) => format!(in alloc; "open {name} failed {reason:?}\n"),
        Happened::Read(name, bytes) => {
            let len = bytes.len();
            format!(in alloc; "read {name} {len}\n")
        }
        Happened::ReadPart(name, bytes) => {
            let len = bytes.len();
            format!(in alloc; "read part {name} {len}\n")
        }
        Happened::NotRead(name, bytes, reason) => {
            let len = bytes.len();
            format!(in alloc; "read {name} {len} failed {reason:?}\n")
        }
        Happened::Printed(..) => Ok(String::new(alloc)),
        Happened::NotPrinted(to, reason) => {
            let word = word_of(*to);
            format!(in alloc; "{word} failed {reason:?}\n")
        }
    }
}

/// All that happened.
pub(crate) fn shown(alloc: Global, events: &[Happened<'_>]) -> Result<String, AllocError> {
    let mut text = String::new(alloc);
    for happened in events {
        text.push_str(line_of(alloc, happened)?.as_str())?;
        if let Happened::Printed(to, printed) = happened {
            put_text(&mut text, *to, printed.as_slice())?;
        }
    }
    Ok(text)
}
