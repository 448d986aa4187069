//! Laws of deleted files. Each function's contract is a law, and its body is empty.

ghost use Rattle.jdeleted.specs.Laws as law;

/// The flat file system has the objects of all nodes; its names are those of the files that are
/// shown, in the root, and no others.
pub fn deleted_are_shown()
    ensures objects { law.FlatHasObjects }
    ensures names { law.FlatHasNames }
{}

/// No two files get the same name.
pub fn names_are_apart()
    ensures { law.NamesAreApart }
{}
