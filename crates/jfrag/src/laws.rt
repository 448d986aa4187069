//! Laws of overlays: each clause is a fact on the definitions alone, and each body is empty.
ghost use Rattle.std.specs.Prelude.{◌≡◌, ◌++◌, ◌∷◌, [], Some, None, replicate};
ghost use Rattle.jfrag.specs.Laws as law;
ghost use Rattle.jfrag.specs.Overlays.{visible, content};
ghost use Rattle.jfrag.specs.Examples.{three_pieces};

/// What is visible is computed as a maximum by version; where pieces of one version agree, it is
/// the only answer that is of the highest version.
pub fn visibility_laws()
    ensures highest { law.VisibleIsHighest }
    ensures only { law.OnlyOneIsHighest }
    ensures content { law.ContentIsVisible }
{}

/// What one more piece does to what is visible.
pub fn piece_laws()
    ensures one_more { law.OneMorePiece }
    ensures again { law.AgainChangesNothing }
    ensures empty { law.EmptyChangesNothing }
    ensures idle { law.IdleIsNotTaken }
{}

/// The worked example: version 3 over places 0 to 9, version 2 over 50 to 59, version 1 over 0 to
/// 99.
pub fn worked_example()
    ensures newest { visible three_pieces 9 ≡ Some (3, 33) }
    ensures oldest { visible three_pieces 10 ≡ Some (1, 11) }
    ensures middle { visible three_pieces 50 ≡ Some (2, 22) }
    ensures after { visible three_pieces 60 ≡ Some (1, 11) }
    ensures past { visible three_pieces 100 ≡ None }
    ensures all { content three_pieces 101
        ≡ replicate 10 33 ++ replicate 40 11 ++ replicate 10 22 ++ replicate 40 11 ++ 0 ∷ [] }
{}
