//! How the bytes of a text are spelled in a line.

/// Which bytes go out as they are, and what takes the place of the others.
#[derive(Clone, Copy)]
pub(crate) enum Spelling {
    /// Each byte that is not plain as `\x` and two hexadecimal digits, as in a name.
    Escaped,
    /// Each control byte so, as in a text of its own.
    InLine,
    /// As in a name, but for slashes, as in a path or a target.
    Word,
}
