//! Laws of what is told of forms in openings. Each function's contract is a law, and its body is
//! empty.

ghost use Rattle.jhalts.specs.HaltLaws.{HaltsSurvive, LinesAreRowForms};

/// There is a line for each form of accepted operations, in order.
pub fn lines_are_forms_in_row()
    ensures { LinesAreRowForms }
{}

/// Where no form is weak, what a stop of `update` leaves mounts through as the file system after
/// the steps of these lines.
pub fn halts_survive()
    ensures { HaltsSurvive }
{}
