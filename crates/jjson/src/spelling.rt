//! How the bytes of a string are spelled.

/// How a string spells its bytes.
#[derive(Clone, Copy)]
pub(crate) enum Spelling {
    /// As the text that they are.
    Text,
    /// Each by its two hexadecimal digits.
    Hex,
}
