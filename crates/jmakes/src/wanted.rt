//! The file that a command makes.
ghost use Rattle.std.specs.Prelude.{◌≡◌};
ghost use Rattle.jmakes.specs.Making.{fill_length};

use jreport::Reason;

/// Up to where a file is filled with erased flash.
#[derive(Clone, Copy, Debug, PartialEq, Eq)]
pub enum Filling {
    /// To this length.
    Length(u64),
    /// To the end of the last block of this size that has a byte.
    Block(u32),
}

/// How many erased bytes follow so many.
pub fn fill_length(filling: Filling, length: u64) -> u64
    ensures { result ≡ fill_length filling length }
{
    match filling {
        Filling::Length(whole) => whole.saturating_sub(length),
        Filling::Block(0) => 0,
        Filling::Block(size) => {
            let size = u64::from(size);
            (size - length % size) % size
        }
    }
}

/// The file of a name. If it is `atomic`, it takes that name only when all is written.
#[derive(Clone, Copy)]
pub struct Wanted<'a> {
    pub name: &'a str,
    pub atomic: bool,
    pub filling: Option<Filling>,
}

/// Why a file has not all of its bytes, or not its name.
#[derive(Clone, Copy, Debug, PartialEq, Eq)]
pub enum CloseFault {
    NotWritten(Reason),
    NotNamed(Reason),
}
