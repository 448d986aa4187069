//! Laws of the acts. Each function's contract is a law, and its body is empty.

ghost use Rattle.jremakes.specs.Laws.{CompactedApartShows, CompactedShowsTree, JudgedIsRemade, RemadeIsBlamed, RemadeIsLeft};

/// No call changes a file before the image is read and judged: one that has no node, that has
/// findings and would be replaced, or that can't be converted or compacted, is not gone on with.
pub fn judged_is_remade()
    ensures { JudgedIsRemade }
{}

/// If the file is to take its name only when all is written, a fault leaves the host's files as
/// they were. That of standard output comes when the file has its name.
pub fn remade_is_left()
    ensures { RemadeIsLeft }
{}

/// A fault that names a file comes with that file's failed call, that of the file's sink with a
/// write that failed, and that of standard output with a print that failed.
pub fn remade_is_blamed()
    ensures { RemadeIsBlamed }
{}

/// What `compact` writes is an image of just those nodes that matter of the one that it read: it
/// shows the same tree, mounts, and has no findings, all through its compression.
pub fn compacted_shows_tree()
    ensures { CompactedShowsTree }
{}

/// What `compact --clashes higher` writes is an image of just those nodes that matter of the ones
/// that stay: it shows the tree that these make, no two of its nodes clash, and it has no findings.
/// Each node that is left out is told.
pub fn compacted_apart_shows()
    ensures { CompactedApartShows }
{}
