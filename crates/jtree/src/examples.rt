//! A worked example of the law.

ghost use Rattle.jtree.specs.Examples as example;

/// A directory, a file and a symlink in it, and a link to the file are a tree, so the law makes
/// them.
pub fn small_tree()
    ensures { example.SmallIsMade }
{}
