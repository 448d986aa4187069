//! The rules that a line of a listing keeps, and which of them it breaks.

use thiserror::Error;

/// What a word stands for after the name of an operation.
#[derive(Clone, Copy, Debug, PartialEq, Eq)]
pub enum Operand {
    Mode,
    /// A decimal number up to this one.
    Number(u32),
    DeviceKind,
    /// A path, or the target of a symlink.
    Text,
    /// Bytes to be written.
    Data,
    /// The name of a file of the host, which stands as it is.
    FileName,
    /// And one that is read as a path is.
    EscapedName,
}

/// The rule that a word breaks.
#[derive(Clone, Copy, Debug, PartialEq, Eq, Error)]
pub enum WordRule {
    #[error("is empty")]
    Empty,
    /// A number has a byte that is no digit; the greatest digit.
    #[error("has a character that is no digit from 0 to {0}")]
    NoDigit(u64),
    /// A number has more than so many digits.
    #[error("has more than {0} digits")]
    TooLong(usize),
    /// A number is above this limit.
    #[error("is above {0}")]
    Above(u32),
    /// The kind of a device is neither of the two.
    #[error("is neither c nor b")]
    Kind,
    #[error("has a backslash that does not begin \\x and two hexadecimal digits")]
    Escape,
    #[error("is not pairs of hexadecimal digits")]
    NoPairs,
    #[error("is not UTF-8")]
    NoText,
}

/// The rule that a line breaks.
#[derive(Clone, Copy, Debug, PartialEq, Eq, Error)]
pub enum Rule {
    #[error("a space at the start")]
    SpaceAtStart,
    #[error("two spaces side by side")]
    TwoSpaces,
    #[error("a space at the end")]
    SpaceAtEnd,
    #[error("a carriage return at the end")]
    CarriageReturn,
    /// The first word names no operation and no setting.
    #[error("no operation has this name")]
    NoOperation,
    /// After the name there are fewer words than the operation takes.
    #[error("too few words: this operation takes {0} after its name")]
    TooFew(usize),
    /// And more.
    #[error("too many words: this operation takes {0} after its name")]
    TooMany(usize),
    /// A word of the line, counted from 1, breaks a rule of its own.
    #[error("word {0} {1}")]
    Word(usize, WordRule),
}
