//! Worked lines. The function's contract has what is left of objects as text, and its body is empty.

ghost use Rattle.std.specs.Prelude.{◌≡◌, ◌++◌, codes};
ghost use Rattle.jpast.specs.PastText.{pasts_text};
ghost use Rattle.jpast.specs.PastExamples.{three_pasts};

/// A name without nodes, a directory, and a file of nine bytes.
pub fn pasts_are_lines()
    ensures { pasts_text three_pasts ≡ codes "was ino 3\n"
        ++ codes "was ino 4 versions 1 to 1\n"
        ++ (codes "was ino 5 versions 2 to 7 size 9 sha256 "
        ++ codes "000102030405060708090a0b0c0d0e0f101112131415161718191a1b1c1d1eff\n") }
{}
