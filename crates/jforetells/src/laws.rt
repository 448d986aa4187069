//! Laws of the acts. Each function's contract is a law, and its body is empty.

ghost use Rattle.jforetells.specs.ForetellLaws.{CutsThroughBlamesFailed, CutsThroughJudgedFirst, CutsThroughReadsOnly, CutsUpdateBlamesFailed, CutsUpdateJudgedFirst, CutsUpdateReadsOnly};

/// It makes no file and changes none.
pub fn cuts_through_reads_only()
    ensures { CutsThroughReadsOnly }
{}

/// A fault of it that names a file comes with that file's failed call, and that of the output with a
/// print that failed.
pub fn cuts_through_blames_failed()
    ensures { CutsThroughBlamesFailed }
{}

/// Where it ends by another fault than that of standard output it has printed nothing there, unless
/// the operation of a line is refused.
pub fn cuts_through_judged_first()
    ensures { CutsThroughJudgedFirst }
{}

/// `cuts --update` makes no file and changes none: not the image either.
pub fn cuts_update_reads_only()
    ensures { CutsUpdateReadsOnly }
{}

/// A fault of `cuts --update` that names a file comes with that file's failed call, and that of the
/// output with a print that failed.
pub fn cuts_update_blames_failed()
    ensures { CutsUpdateBlamesFailed }
{}

/// Where `cuts --update` ends by another fault than that of standard output it has printed nothing
/// there, unless the operation of a line is refused.
pub fn cuts_update_judged_first()
    ensures { CutsUpdateJudgedFirst }
{}
