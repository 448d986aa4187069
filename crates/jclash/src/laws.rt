//! Laws of what stays. Each function's contract is a law, and its body is empty.

ghost use Rattle.jclash.specs.Laws.{StayingDoNotClash, AllStayWithoutClash, OneParting, StayingAreOfNodes, NoneIsLost};

/// No two nodes that stay clash; where none clash, all stay.
pub fn staying_do_not_clash()
    ensures apart { StayingDoNotClash }
    ensures all { AllStayWithoutClash }
{}

/// There is one way to part nodes. Those that stay are of them, and none is lost: each stays or is
/// left out.
pub fn one_parting()
    ensures one { OneParting }
    ensures of_nodes { StayingAreOfNodes }
    ensures whole { NoneIsLost }
{}
