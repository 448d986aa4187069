//! Laws of what is told of forms. Each function's contract is a law, and its body is empty.

ghost use Rattle.jstops.specs.StopLaws.{LinesAreForms, StopsSurvive};

/// There is a line for each form of accepted operations, in order.
pub fn lines_are_forms()
    ensures { LinesAreForms }
{}

/// Where no form is weak, what a stop leaves mounts through as the file system after the steps of
/// these lines.
pub fn stops_survive()
    ensures { StopsSurvive }
{}
