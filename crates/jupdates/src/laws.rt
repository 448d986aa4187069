//! Laws of the acts. Each function's contract is a law, and its body is empty.
ghost use Rattle.jupdates.specs.Laws.{BuildCompressedIsJudged, BuildCompressedLeavesFiles, BuildCompressedNotesNothing, BuildCompressedShowsOps, UpdateIsJudged, UpdateLeavesFiles, UpdateShowsOps};

/// With `--atomic`, a fault leaves the files of the host as they were, and what was made is
/// removed, or that failed. But the fault of standard output comes when the file has its name.
pub fn update_leaves_files()
    ensures { UpdateLeavesFiles }
{}

/// Nothing is made, and no file changed, at any fault but those of the file that is made and of
/// writing it.
pub fn update_is_judged()
    ensures { UpdateIsJudged }
{}

/// What is written where it ends well has each block of the image that is not taken, and each taken
/// one in front of where it is written; and it mounts through its compression as what the listing
/// makes of the file system that the image shows.
pub fn update_shows_ops()
    ensures { UpdateShowsOps }
{}

/// With `--atomic`, a fault leaves the files of the host as they were, as one of `update` does.
pub fn build_compressed_leaves_files()
    ensures { BuildCompressedLeavesFiles }
{}

/// Nothing is made, and no file changed, at any fault but those of the file that is made and of
/// writing it.
pub fn build_compressed_is_judged()
    ensures { BuildCompressedIsJudged }
{}

/// What is written where it ends well, also filled up, mounts through its compression as what the
/// listing makes of an empty file system. Nothing is noted of it.
pub fn build_compressed_shows_ops()
    ensures shows { BuildCompressedShowsOps }
    ensures notes { BuildCompressedNotesNothing }
{}
