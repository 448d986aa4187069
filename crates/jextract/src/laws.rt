//! Laws of what is made in a folder, each the contract of an empty function.

ghost use Rattle.jextract.specs.Laws as law;

/// What comes of a whole tree is also a first part of it: the laws below hold of both.
pub fn whole_is_first()
    ensures { law.WholeIsFirst }
{}

/// Whatever an image says, each path at which something is made has names that lead into the
/// folder.
pub fn makes_inside()
    ensures { law.MakesInside }
{}

/// The directories on the way to what is made were made before it, the folder itself first.
pub fn makes_below()
    ensures { law.MakesBelow }
{}

/// At no path is more than one object made, and what was made is completed once at most, also where
/// a fault ends it.
pub fn makes_once()
    ensures { law.MakesOnce }
{}

/// Nothing is made through a symlink: all that is done on the way to what is made, before or after,
/// is done to directories.
pub fn makes_through_directories()
    ensures { law.MakesThroughDirectories }
{}

/// Whatever bytes a file has, it reads as them where holes are left for its blocks of zeros.
pub fn holes_read_back()
    ensures { law.HolesReadBack }
{}

/// A further name is of a file or a symlink that was made in the folder before, if the root is a
/// directory.
pub fn links_back()
    ensures { law.LinksLeadBack }
{}
