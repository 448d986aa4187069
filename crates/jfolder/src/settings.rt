//! What a listing sets for the lines that follow.

/// The time and the owner that are set.
#[derive(Clone, Copy)]
pub struct Settings {
    pub time: u32,
    pub uid: u16,
    pub gid: u16,
}
