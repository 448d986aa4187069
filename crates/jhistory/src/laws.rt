//! Laws of histories. Each function's contract is a law, and its body is empty.

ghost use Rattle.jhistory.specs.HistoryLaws as law;

/// Each node that is told has one word, so the numbers of the last line sum to all lines.
pub fn totals_are_all()
    ensures { law.TotalsAreAll }
{}

/// The live nodes are just those that matter.
pub fn live_is_kept()
    ensures { law.LiveIsKept }
{}
