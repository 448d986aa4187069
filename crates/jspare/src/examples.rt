//! Worked examples. Each function's contract has numbers and no variables, and its body is empty.

ghost use Rattle.std.specs.Prelude.{◌≡◌, [], ◌∷◌, None, Some, IsFalse, IsTrue};
ghost use Rattle.jspare.specs.Paging.{pages_left};
ghost use Rattle.jspare.specs.Regions.{cut_out, has_region, region_of};
ghost use Rattle.jspare.specs.Spare.{without_spare};

/// Pages of two bytes with one spare byte: a dump that ends with a page, within a page, within the
/// spare bytes, and an empty one.
#[tactic(auto, unfolding(crate::specs::Spare::first_pages))]
pub fn known_pages()
    ensures whole { without_spare (record { page = 2; spare = 1 }) (1 ∷ 2 ∷ 9 ∷ 3 ∷ 4 ∷ 8 ∷ [])
        ≡ 1 ∷ 2 ∷ 3 ∷ 4 ∷ [] }
    ensures short { without_spare (record { page = 2; spare = 1 }) (1 ∷ 2 ∷ 9 ∷ 3 ∷ [])
        ≡ 1 ∷ 2 ∷ 3 ∷ [] }
    ensures cut_spare { without_spare (record { page = 2; spare = 1 }) (1 ∷ 2 ∷ 9 ∷ 3 ∷ 4 ∷ [])
        ≡ 1 ∷ 2 ∷ 3 ∷ 4 ∷ [] }
    ensures no_spare { without_spare (record { page = 2; spare = 0 }) (1 ∷ 2 ∷ 3 ∷ [])
        ≡ 1 ∷ 2 ∷ 3 ∷ [] }
    ensures empty { without_spare (record { page = 2; spare = 1 }) [] ≡ [] }
{}

/// What is left of such a dump: from the beginning of a page, from within it, from its spare byte,
/// from behind that, and at the end.
#[tactic(auto, unfolding(crate::specs::Spare::first_pages, crate::specs::Paging::pages_left))]
pub fn known_left()
    ensures page { pages_left (record { page = 2; spare = 1 }) 3 (1 ∷ 2 ∷ 9 ∷ 3 ∷ [])
        ≡ 1 ∷ 2 ∷ 3 ∷ [] }
    ensures within { pages_left (record { page = 2; spare = 1 }) 2 (2 ∷ 9 ∷ 3 ∷ 4 ∷ 8 ∷ [])
        ≡ 2 ∷ 3 ∷ 4 ∷ [] }
    ensures spare { pages_left (record { page = 2; spare = 1 }) 1 (9 ∷ 3 ∷ 4 ∷ []) ≡ 3 ∷ 4 ∷ [] }
    ensures behind { pages_left (record { page = 2; spare = 1 }) 0 (3 ∷ 4 ∷ 8 ∷ []) ≡ 3 ∷ 4 ∷ [] }
    ensures empty { pages_left (record { page = 2; spare = 1 }) 2 [] ≡ [] }
{}

/// What is cut out of four bytes, from an offset on: all, so many, none, and behind their end.
pub fn known_cuts()
    ensures all { cut_out 1 None (1 ∷ 2 ∷ 3 ∷ 4 ∷ []) ≡ 2 ∷ 3 ∷ 4 ∷ [] }
    ensures some { cut_out 1 (Some 2) (1 ∷ 2 ∷ 3 ∷ 4 ∷ []) ≡ 2 ∷ 3 ∷ [] }
    ensures whole { cut_out 0 None (1 ∷ 2 ∷ 3 ∷ 4 ∷ []) ≡ 1 ∷ 2 ∷ 3 ∷ 4 ∷ [] }
    ensures end { cut_out 4 None (1 ∷ 2 ∷ 3 ∷ 4 ∷ []) ≡ [] }
    ensures behind { cut_out 3 (Some 2) (1 ∷ 2 ∷ 3 ∷ 4 ∷ []) ≡ 4 ∷ [] }
{}

/// A region of a dump that has a spare byte behind each page of two: the offset counts the bytes
/// without the spare ones.
#[tactic(auto, unfolding(crate::specs::Spare::first_pages))]
pub fn known_regions()
    ensures spare { region_of (record {
      layout = Some (record { page = 2; spare = 1 });
      offset = 3;
      length = Some 2;
    }) (1 ∷ 2 ∷ 9 ∷ 3 ∷ 4 ∷ 9 ∷ 5 ∷ 6 ∷ []) ≡ 4 ∷ 5 ∷ [] }
    ensures plain { region_of (record { layout = None; offset = 3; length = Some 2 })
        (1 ∷ 2 ∷ 9 ∷ 3 ∷ 4 ∷ 9 ∷ 5 ∷ 6 ∷ []) ≡ 3 ∷ 4 ∷ [] }
{}

/// Which regions a dump has: all of an empty one; to its last byte, and no further; from its last
/// byte on, and not from behind it; and the spare bytes do not count.
#[tactic(auto, unfolding(crate::specs::Spare::first_pages))]
pub fn known_ends()
    ensures empty { IsTrue (has_region (record { layout = None; offset = 0; length = None }) []) }
    ensures to_last { IsTrue (has_region (record { layout = None; offset = 1; length = Some 2 })
        (1 ∷ 2 ∷ 3 ∷ [])) }
    ensures further { IsFalse (has_region (record { layout = None; offset = 1; length = Some 3 })
        (1 ∷ 2 ∷ 3 ∷ [])) }
    ensures last { IsTrue (has_region (record { layout = None; offset = 2; length = None })
        (1 ∷ 2 ∷ 3 ∷ [])) }
    ensures behind { IsFalse (has_region (record { layout = None; offset = 3; length = None })
        (1 ∷ 2 ∷ 3 ∷ [])) }
    ensures spare { IsFalse (has_region (record {
      layout = Some (record { page = 2; spare = 1 });
      offset = 2;
      length = Some 2;
    }) (1 ∷ 2 ∷ 9 ∷ 3 ∷ [])) }
{}
