//! Whose lines become JSON.

/// The lines of which command a text has.
#[derive(Clone, Copy, Debug, PartialEq, Eq)]
pub enum Lines {
    /// The tree of `ls`.
    Tree,
    /// The report and the verdict of `check`.
    Report,
    /// The parameters of `info`.
    Parameters,
    /// The differences of `diff` and `verify`.
    Differences,
    /// What `damage` prints.
    Damage,
    /// What `history` prints.
    History,
    /// What `map` prints.
    Map,
    /// What `cuts` prints.
    Cuts,
}
