//! Laws of the acts. Each function's contract is a law, and its body is empty.

ghost use Rattle.jinspects.specs.InspectLaws.{InspectedBlamesFailed, InspectedJudgedFirst, InspectsOnly, PlainIsChecked};

/// No command here makes a file, or changes one, whatever it answers.
pub fn inspects_only()
    ensures { InspectsOnly }
{}

/// A fault that names a file comes with that file's failed call, and that of the output with a
/// print that failed. An inode that is not there names none.
pub fn inspected_blames_failed()
    ensures { InspectedBlamesFailed }
{}

/// A command that ends by another fault than that of standard output has printed nothing there. But
/// in `check --decompress` memory may be wanting later: behind the report.
pub fn inspected_judged_first()
    ensures { InspectedJudgedFirst }
{}

/// Of an image without compressed nodes `check --decompress` prints what `check` prints, and finds
/// what it finds.
pub fn plain_is_checked()
    ensures { PlainIsChecked }
{}
