//! What a line of a listing means.

use crate::line::Action;

/// The time and the owner that earlier lines set for those that follow.
#[derive(Clone, Copy)]
pub struct Settings {
    pub time: u32,
    pub uid: u16,
    pub gid: u16,
}

/// What a line means.
#[derive(Drop)]
pub enum Statement<'a> {
    /// Nothing: an empty line or a comment.
    Blank,
    /// Settings for the lines that follow.
    Settings(Settings),
    /// An action.
    Action(Action<'a>),
}
