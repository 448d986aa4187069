//! A law of what is written into openings. The function's contract is the law, and its body is empty.

ghost use Rattle.jupdate.specs.Updates.{UpdatesAreWholeInOpenings};

/// Updates in the openings of an image leave whole files after a stop at any byte, whatever the
/// forms of their nodes.
pub fn updates_are_whole_in_openings()
    ensures { UpdatesAreWholeInOpenings }
{}
