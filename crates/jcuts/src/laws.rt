//! Laws of what is told. Each function's contract is a law, and its body is empty.

ghost use Rattle.jcuts.specs.Laws.{WholeLenIsLeast, WeakIsLeast, StandingsHavePlaces, StandingIsCounted, LinesAreNodes, ToldSurvives};

/// A node stands whole exactly from the byte after its last one that is not 0xFF, and the weak cut
/// that is told is the least.
pub fn standing_is_least()
    ensures whole { WholeLenIsLeast }
    ensures weak { WeakIsLeast }
{}

/// There is a line for each node, in order, at its place.
pub fn lines_are_nodes()
    ensures places { StandingsHavePlaces }
    ensures lines { LinesAreNodes }
{}

/// As many nodes stand whole after a stop as have a line with its address or one below it.
pub fn standing_is_counted()
    ensures { StandingIsCounted }
{}

/// Where no node is weak, what a stop leaves mounts as the file system after the steps of these
/// lines.
pub fn told_survives()
    ensures { ToldSurvives }
{}
