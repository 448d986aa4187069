//! Laws of the numbers and lines of a listing, each the contract of an empty function.

ghost use Rattle.jlisting.specs.Laws as law;

/// A word is read as a number exactly where it is a numeral of its base, short enough, and within
/// the limit.
pub fn numbers_are_numerals()
    ensures { law.NumbersAreNumerals }
{}

/// A number below 10^10 as it is printed is read back, where it is within the limit.
pub fn decimals_are_read_back()
    ensures { law.DecimalsAreReadBack }
{}

/// A line breaks no rule exactly where it means something, whatever the settings are.
pub fn broken_lines_mean_nothing()
    ensures { law.BrokenLinesMeanNothing }
{}
