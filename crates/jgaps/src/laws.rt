//! Laws of gaps. Each function's contract is a law, and its body is empty.

ghost use Rattle.jgaps.specs.Laws.{GapsAreMaximal, NoGapWhereCovered};

/// There is no gap exactly where each byte below the size is in the range of a node.
pub fn no_gap_where_covered()
    ensures { NoGapWhereCovered }
{}

/// The bytes in gaps are just those that no node has, and a gap is as long as it can be.
pub fn gaps_are_maximal()
    ensures { GapsAreMaximal }
{}
