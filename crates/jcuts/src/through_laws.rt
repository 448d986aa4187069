//! Laws of what is told of forms. Each function's contract is a law, and its body is empty.

ghost use Rattle.jcuts.specs.ThroughLaws.{NoneToldIsNoneWeak, ToldSurvivesThrough};

/// Where no form is told to be weak none is, and what a stop leaves mounts through as the file
/// system after the steps of these lines, whatever the forms that the nodes were put in.
pub fn told_survives_through()
    ensures none { NoneToldIsNoneWeak }
    ensures survives { ToldSurvivesThrough }
{}
