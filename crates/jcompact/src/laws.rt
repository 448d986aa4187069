//! Laws of what matters. Each function's contract is a law, and its body is empty.

ghost use Rattle.jcompact.specs.Compacted as compacted;
ghost use Rattle.jcompact.specs.Laws as law;

/// Of the nodes that matter an object that names lead to is the same: attributes, size and bytes.
pub fn objects_are_kept()
    ensures { law.KeepsObjects }
{}

/// And each path leads to the same number, or to the same fault.
pub fn paths_are_kept()
    ensures paths { law.KeepsPaths }
    ensures walks { law.KeepsWalks }
{}

/// The nodes that matter are some of the nodes. None of their names dangles, and names lead to each
/// of their objects.
pub fn nothing_is_left_over()
    ensures part { law.ArePart }
    ensures names { law.NoneDangle }
    ensures objects { law.AllAreReached }
{}

/// Among the nodes that matter each one still does: what is left has nothing more to leave out.
pub fn all_still_matter()
    ensures { law.AllStillMatter }
{}

/// And each would be missed. Without an entry its name leads nowhere. In the place of an inode node,
/// another one of its object, version and range would make another object: of these alone no more
/// nodes can be told that have no effect.
pub fn each_is_missed()
    ensures names { law.EachEntryIsMissed }
    ensures objects { law.EachInodeIsMissed }
{}

/// An image that has just the nodes of another that matter shows the same tree. No name of it
/// dangles, and names lead to each of its objects.
pub fn compact_shows_the_tree()
    ensures paths { compacted.CompactKeepsPaths }
    ensures objects { compacted.CompactKeepsObjects }
    ensures rest { compacted.CompactHasNoRest }
{}
