//! Laws of the acts. Each function's contract is a law, and its body is empty.

ghost use Rattle.jedge.specs.Inflating.{CatIsAsThrough, LsIsAsThrough};
ghost use Rattle.jedge.specs.Laws.{BlamedIsFailed, JudgedFirst, ReadsOnly};

/// No command here makes a file, or changes one, whatever it answers.
pub fn reads_only()
    ensures { ReadsOnly }
{}

/// A fault that names a file comes with that file's failed call, and that of the output with a
/// print that failed.
pub fn blamed_is_failed()
    ensures { BlamedIsFailed }
{}

/// A command that ends by another fault than that of standard output has printed nothing there. But
/// memory may be wanting later: in `ls` and `diff` while they print, in `check` behind its report.
pub fn judged_first()
    ensures { JudgedFirst }
{}

/// With `--decompress`, `ls` and `cat` decompress only what they show. If an image mounts through
/// its compression, then they print what that mount shows, byte for byte, and note the same; or
/// memory runs out.
pub fn inflates_what_it_shows()
    ensures ls { LsIsAsThrough }
    ensures cat { CatIsAsThrough }
{}
