//! Why an object of an image is left out.

/// Why an object of an image is left out.
#[derive(Clone, Copy, Debug, PartialEq, Eq)]
pub enum Reason {
    /// A name is empty, `.` or `..`, or has a slash or a zero byte.
    BadName,
    /// The path has more than 4,095 bytes.
    LongPath,
    /// The path is not UTF-8.
    NoText,
    /// It is a directory that was made before, by another name.
    Again,
    CharacterDevice,
    BlockDevice,
    Fifo,
    Socket,
    /// Its mode has bits that name no kind.
    UnknownKind,
    /// It is a symlink whose target is empty, has more than 4,095 bytes or a zero byte, or is not
    /// UTF-8.
    BadTarget,
    /// The image has no inode node of its number: the name leads nowhere.
    Missing,
    /// The host did not do it, or not all of it.
    Refused,
}
