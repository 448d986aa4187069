//! Laws of dumps. Each function's contract is a law, and its body is empty.

ghost use Rattle.jspare.specs.Laws.{ByteOfPage};

/// Each byte of the image is the byte of its page in the dump.
pub fn byte_of_a_page()
    ensures { ByteOfPage }
{}
