//! A law of paths, the contract of an empty function.

ghost use Rattle.jreport.specs.Paths as law;

/// What is printed of the bytes of a name, or of a symlink's target, is read as those bytes.
pub fn escaped_is_read_back()
    ensures { law.EscapedIsReadBack }
{}
