//! Laws of what is told. Each function's contract is a law, and its body is empty.

ghost use Rattle.jdamage.specs.Laws.{DirectoryHasPath, DirectoryPathLeads, FirstNamesLead, ImageIsSameWithout, ObjectIsSameWithout, ObjectWouldChange, SoundHasNoLines, StateIsSameWithout, ThroughIsSameWithout};

/// Of an image without damaged nodes, whose names all lead to objects, nothing is told but the
/// totals, and these are 0.
pub fn sound_has_no_lines()
    ensures { SoundHasNoLines }
{}

/// A node that hides nothing beside others is not missed: the object that it is of is the same
/// whether it stands between them or not, and so is the whole file system, whatever it said. An image
/// that is mounted through its compression has this of its compressed nodes too.
pub fn same_without()
    ensures object { ObjectIsSameWithout }
    ensures state { StateIsSameWithout }
    ensures image { ImageIsSameWithout }
    ensures through { ThroughIsSameWithout }
{}

/// And a node of a version of its own that does not hide nothing may be missed: one of the same
/// object, version and range would have changed the object.
pub fn would_change()
    ensures { ObjectWouldChange }
{}

/// The path that is told of a directory leads there.
pub fn directory_path_leads()
    ensures { DirectoryPathLeads }
{}

/// A directory to which names lead from the root has a path.
pub fn directory_has_path()
    ensures { DirectoryHasPath }
{}

/// Where no directory has two names, each one's path is that by first names.
pub fn first_names_lead()
    ensures { FirstNamesLead }
{}
