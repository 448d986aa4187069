//! Laws of the acts on folders. Each function's contract is a law, and its body is empty.

ghost use Rattle.jfolders.specs.Laws.{FilledLast, FoldersBlamed, ListingJudgedFirst, ReadingMakesNothing};

/// A folder that is read stays as it is, whatever the command answers.
pub fn reading_makes_nothing()
    ensures { ReadingMakesNothing }
{}

/// What an extraction is refused for is judged before anything is made.
pub fn filled_last()
    ensures { FilledLast }
{}

/// A fault that names a file or a folder comes with a failed call on it, and that of the output
/// with a print that failed.
pub fn folders_blamed()
    ensures { FoldersBlamed }
{}

/// A listing that ends by another fault than that of the output has printed nothing on standard
/// output.
pub fn listing_judged_first()
    ensures { ListingJudgedFirst }
{}
