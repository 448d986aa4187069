//! Laws of revisions. Each function's contract is a law, and its body is empty.

ghost use Rattle.jversions.specs.Laws as law;

/// An object up to its highest version is what a mount of all nodes shows: so its bytes are those
/// that `cat` gives.
pub fn last_revision_is_shown()
    ensures object { law.LastIsShown }
    ensures bytes { law.LastIsReadable }
{}

/// The nodes that the tiles of a revision give are those of the image that are of the revision.
pub fn tiles_give_nodes()
    ensures { law.TilesGiveNodes }
{}
