//! What a command found.
ghost use Rattle.std.specs.Prelude.{◌≡◌};
ghost use Rattle.jedge.specs.Acts.{and_closed};

use crate::fault::Fault;
use jhint::Hint;
use jinfo::Container;

/// What is noted of it on standard error.
#[derive(Clone, Copy)]
pub enum Note<'a> {
    /// The file begins as this.
    Container(Container),
    /// The image has so many findings.
    Findings(u64),
    /// No node is found in the image; in the other byte order there are `others`.
    NoNodes { findings: u64, others: u64 },
    /// Of an image that was extracted.
    Extraction(Extracted),
    /// Of two images, the findings of each.
    Both(Named<'a>, Named<'a>),
    /// Of an image that was read.
    Read(ReadNotes),
    /// Of an image that was written to.
    Left(BlankLeft),
    /// Of a file that was printed, and lacks bytes.
    Content(ContentNotes),
}

/// How many findings an image has that was extracted, how many objects lost bits of their modes,
/// and how many nodes it has of extended attributes.
#[derive(Clone, Copy)]
pub struct Extracted {
    pub findings: u64,
    pub lost_bits: u64,
    pub attributes: u64,
    /// What it shows, if it has findings and was read with other options.
    pub hint: Option<Hint>,
}

/// How many findings an image has, how many nodes the other byte order has where no node is found
/// in it, and what it shows, if it was read with other options.
#[derive(Clone, Copy)]
pub struct ReadNotes {
    pub findings: u64,
    pub others: Option<u64>,
    pub hint: Option<Hint>,
}

/// How many bytes of a file no node has, and what is noted of its image.
#[derive(Clone, Copy)]
pub struct ContentNotes {
    pub missing: u64,
    pub read: Option<ReadNotes>,
}

/// What is noted of an image that was shown (`findings`, and `others` where no node is found in
/// it), how many blank blocks it has left, and how many Linux keeps in reserve.
#[derive(Clone, Copy)]
pub struct BlankLeft {
    pub findings: u64,
    pub others: Option<u64>,
    pub left: u64,
    pub reserve: u64,
}

/// How many findings the image of a name has.
#[derive(Clone, Copy)]
pub struct Named<'a> {
    pub name: &'a str,
    pub findings: u64,
}

/// How much a command found of what it looks for, and what is noted.
#[derive(Clone, Copy)]
pub struct Found<'a> {
    pub counted: u64,
    pub note: Option<Note<'a>>,
}

/// The answer of a call whose output was closed.
pub fn finished<A: Drop>(answer: Result<A, Fault>, closed: Result<(), Fault>) -> Result<A, Fault>
    ensures { result ≡ and_closed answer closed }
{
    match answer {
        Ok(found) => match closed {
            Ok(()) => Ok(found),
            Err(fault) => Err(fault),
        },
        Err(fault) => Err(fault),
    }
}
