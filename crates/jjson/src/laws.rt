//! Laws of JSON of lines. Each function's contract is a law, and its body is empty.

ghost use Rattle.jjson.specs.Laws.{GivesOneLine, JsonGoesOn, NamesAreMeant, WholeLinesAreApart};

/// The JSON of a text that goes on is that of the first part, and then that of the rest behind the
/// line that the first part begins.
pub fn goes_on()
    ensures { JsonGoesOn }
{}

/// Whole lines do not matter to the lines after them.
pub fn whole_lines_are_apart()
    ensures { WholeLinesAreApart }
{}

/// A line gives one line of JSON, or none.
pub fn one_line()
    ensures { GivesOneLine }
{}

/// A name that is printed with its escapes is the text of its member.
pub fn names_are_meant()
    ensures { NamesAreMeant }
{}
