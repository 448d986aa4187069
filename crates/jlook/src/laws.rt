//! Laws of looking. Each function's contract is a law, and its body is empty.

ghost use Rattle.jlook.specs.Chosen.{ObjectIsTheSame, TreeIsTheSame};
ghost use Rattle.jlook.specs.Laws.{AllWantedIsThrough, LookingMounts, LookingShowsTheTree, OnlyTheWantedRefuse};

/// An image that mounts through its compression mounts as it is looked at, whatever is wanted, and
/// shows the same: the names, the attributes and sizes of all objects, and the bytes of those that
/// are wanted.
pub fn looking_shows_the_tree()
    ensures mounts { LookingMounts }
    ensures same { LookingShowsTheTree }
{}

/// If all is wanted, then a look is the mount through.
pub fn all_wanted_is_through()
    ensures { AllWantedIsThrough }
{}

/// If compressed data refuse an image that is looked at, then they are of an object that is wanted,
/// or the contents of those are too long in all. So no other data are judged, broken or not.
pub fn only_the_wanted_refuse()
    ensures { OnlyTheWantedRefuse }
{}

/// A look that wants the targets of symlinks, or the object that a path names, shows them and the
/// tree as the mount through does.
pub fn chosen_is_the_same()
    ensures tree { TreeIsTheSame }
    ensures object { ObjectIsTheSame }
{}
