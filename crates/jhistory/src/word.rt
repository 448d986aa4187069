//! What became of a node.

ghost use Rattle.std.specs.Prelude.{◌≡◌, ◌≤◌, length};
ghost use Rattle.jhistory.specs.HistoryText.{word_text};

use std::collections::BTreeMap;

/// What became of a node.
#[derive(Clone, Copy, Debug, PartialEq, Eq)]
pub enum NodeWord {
    /// It is kept: the tree is made of it.
    Live,
    /// A newer one of the same object or name took its place.
    Superseded,
    /// Its name, or the last name of its object, was deleted.
    Deleted,
    /// An entry that says that its name is gone.
    Deletion,
    /// It is the newest, and no names lead to it from the root.
    Unreached,
    /// It is marked obsolete.
    Obsolete,
}

/// Words by the addresses of nodes.
pub type Words = BTreeMap<u32, NodeWord>;

impl NodeWord {
    /// What it is called.
    pub(crate) fn text(self) -> &'static [u8]
        ensures text { result.now ≡ word_text self }
        ensures short { length result.now ≤ 10 }
    {
        match self {
            NodeWord::Live => b"live",
            NodeWord::Superseded => b"superseded",
            NodeWord::Deleted => b"deleted",
            NodeWord::Deletion => b"deletion",
            NodeWord::Unreached => b"unreached",
            NodeWord::Obsolete => b"obsolete",
        }
    }
}
