//! What is left of an object.

/// The lowest and the highest of some versions.
#[derive(Clone, Copy, Debug, PartialEq, Eq)]
pub struct Span {
    pub lowest: u32,
    pub highest: u32,
}

/// How many bytes there are, and their SHA-256 (FIPS 180-4).
#[derive(Clone, Copy, Debug, PartialEq, Eq)]
pub struct Content {
    pub size: u32,
    pub digest: [u8; 32],
}

/// What is left of an object.
#[derive(Clone, Copy, Debug, PartialEq, Eq)]
pub struct Past {
    /// Its inode number.
    pub ino: u32,
    /// The versions of its inode nodes, if there are any.
    pub span: Option<Span>,
    /// Its bytes by all these nodes, if it is a regular file or a symlink.
    pub content: Option<Content>,
}
