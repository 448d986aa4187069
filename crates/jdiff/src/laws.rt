//! Laws of the lines on two trees. Each function's contract is a law, and its body is empty.

ghost use Rattle.jdiff.specs.Laws.{SameTreesHaveNoLines, TreesHaveLines};

/// There are no lines exactly where two trees have the same entries, path by path, bytes included.
pub fn same_trees_have_no_lines()
    ensures { SameTreesHaveNoLines }
{}

/// Any two trees have lines, and no others.
pub fn trees_have_lines()
    ensures { TreesHaveLines }
{}
