//! Laws of the acts. Each function's contract is a law, and its body is empty.
ghost use Rattle.jmakes.specs.Laws.{AtomicLeavesFiles, BlamesMade, JudgedBeforeMade};

/// With `--atomic`, a fault leaves the files of the host as they were, and what was made is
/// removed, or that failed. But the fault of standard output comes when the file has its name.
pub fn atomic_leaves_files()
    ensures { AtomicLeavesFiles }
{}

/// Nothing is made, and no file changed, at any fault but those of the file that is made and of
/// writing it.
pub fn judged_before_made()
    ensures { JudgedBeforeMade }
{}

/// A fault that names a file, or a sink, comes with a call on that file that failed, for the same
/// reason.
pub fn blames_made()
    ensures { BlamesMade }
{}
