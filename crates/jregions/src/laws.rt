//! Laws of spans. Each function's contract is a law, and its body is empty.

ghost use Rattle.jregions.specs.Laws.{NodesAreInSpans, SpansAreApart};

/// Spans lie in order, and no two have a unit in common.
pub fn spans_are_apart()
    ensures { SpansAreApart }
{}

/// Each unit that has nodes lies in a span of their order.
pub fn nodes_are_in_spans()
    ensures { NodesAreInSpans }
{}
