//! How many nodes of each kind an image has.

ghost use Rattle.std.specs.Prelude.{◌≡◌};
ghost use Rattle.jinfo.specs.Counting.{NodesHaveRoom, nodes_counted};

use crate::kinds::{is_damaged, is_entry, is_inode, is_node, is_obsolete, is_other, one_if};
use jscan::ExtentKind;

/// How many nodes an image has. Each is one of the kinds.
#[derive(Clone, Copy, Debug, PartialEq, Eq)]
pub struct NodeCounts {
    pub all: u64,
    pub entries: u64,
    /// Sound inode nodes, however their data are compressed.
    pub inodes: u64,
    pub obsolete: u64,
    pub damaged: u64,
    /// Clean markers, padding, and types that carry no entry and no object.
    pub other: u64,
}

impl NodeCounts {
    /// The counts with one extent more.
    pub(crate) fn with(self, kind: &ExtentKind<'_>) -> NodeCounts
        requires room { NodesHaveRoom self }
        ensures { result ≡ nodes_counted self kind.now }
    {
        NodeCounts {
            all: self.all + one_if(is_node(kind)),
            entries: self.entries + one_if(is_entry(kind)),
            inodes: self.inodes + one_if(is_inode(kind)),
            obsolete: self.obsolete + one_if(is_obsolete(kind)),
            damaged: self.damaged + one_if(is_damaged(kind)),
            other: self.other + one_if(is_other(kind)),
        }
    }
}
