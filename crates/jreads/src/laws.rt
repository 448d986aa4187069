//! Laws of the acts. Each function's contract is a law, and its body is empty.

ghost use Rattle.jreads.specs.ReadLaws.{AreAllKept, AreAllMeasured, CutsBlameFailed, CutsJudgedFirst, CutsReadOnly, ScanBlamesFailed, ScanJudgedFirst, ScanReadsOnly};

/// Each file that a listing names is kept, with the bytes that were read of it, unless it was read
/// before.
pub fn all_are_kept()
    ensures { AreAllKept }
{}

/// Each file that a listing names is measured, and they are together no longer than the greatest
/// image, as the host says.
pub fn all_are_measured()
    ensures { AreAllMeasured }
{}

/// `cuts` makes no file and changes none.
pub fn cuts_read_only()
    ensures { CutsReadOnly }
{}

/// A fault of `cuts` that names a file comes with that file's failed call, and that of the output
/// with a print that failed.
pub fn cuts_blame_failed()
    ensures { CutsBlameFailed }
{}

/// `cuts` that ends by another fault than that of standard output has printed nothing there, unless
/// the operation of a line is refused.
pub fn cuts_judged_first()
    ensures { CutsJudgedFirst }
{}

/// `check --scan` makes no file and changes none.
pub fn scan_reads_only()
    ensures { ScanReadsOnly }
{}

/// A fault of `check --scan` that names a file comes with that file's failed call, and that of the
/// output with a print that failed.
pub fn scan_blames_failed()
    ensures { ScanBlamesFailed }
{}

/// `check --scan` that ends by another fault than that of standard output has printed nothing
/// there, unless the file failed or is too long.
pub fn scan_judged_first()
    ensures { ScanJudgedFirst }
{}
