//! Laws of what goes out. Each function's contract is a law, and its body is empty.

ghost use Rattle.jbuild.specs.Length.{LineTellsLength, PlacesTellLength};

/// The number of bytes in the line on operations that were all accepted is the length of what went
/// out for them.
pub fn line_tells_length()
    ensures places { PlacesTellLength }
    ensures line { LineTellsLength }
{}
