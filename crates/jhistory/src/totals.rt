//! How many nodes have each word.

ghost use Rattle.std.specs.Prelude.{◌≡◌, ◌+◌, ◌^◌, ◌<◌, List, [], ◌∷◌, ◌++◌, length};
ghost use Rattle.jhistory.specs.HistoryText.{word_totals};
ghost use Rattle.jhistory.specs.declared.word.NodeWord.{NodeWord};

use crate::word::NodeWord;

/// How many nodes have each word.
#[derive(Clone, Copy, Debug, PartialEq, Eq)]
pub struct Totals {
    pub live: u64,
    pub superseded: u64,
    pub deleted: u64,
    pub deletion: u64,
    pub unreached: u64,
    pub obsolete: u64,
}

impl Totals {
    /// Of no nodes.
    pub(crate) fn new() -> Totals
        ensures { result ≡ word_totals [] }
    {
        Totals {
            live: 0,
            superseded: 0,
            deleted: 0,
            deletion: 0,
            unreached: 0,
            obsolete: 0,
        }
    }

    /// Counts a word.
    pub(crate) fn add(&mut self, word: NodeWord)
        requires room { (words : List NodeWord) × (self.old ≡ word_totals words)
            × (length words + 1 < 2 ^ 64) }
        ensures { (words : List NodeWord) → self.old ≡ word_totals words
            → self.new ≡ word_totals (words ++ word ∷ []) }
    {
        match word {
            NodeWord::Live => self.live += 1,
            NodeWord::Superseded => self.superseded += 1,
            NodeWord::Deleted => self.deleted += 1,
            NodeWord::Deletion => self.deletion += 1,
            NodeWord::Unreached => self.unreached += 1,
            NodeWord::Obsolete => self.obsolete += 1,
        }
    }
}
