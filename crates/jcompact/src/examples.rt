//! Worked rows of what matters.

ghost use Rattle.std.specs.Prelude.{◌≡◌, [], ◌∷◌, codes, replicate};
ghost use Rattle.jcompact.specs.Examples.{file_row, folder_row, kept_at, name_row, two_reached};

/// Names: of an entry that a newer one replaced, of a deletion and what it took away, and of one
/// name twice, and of two names of one object. An entry whose object is missing is dropped, as is
/// one in a directory that no name leads to, and so are the directories of a ring below itself.
pub fn names_kept()
    ensures replaced { kept_at two_reached ((0, file_row 2 1 0 0 [])
        ∷ (100, name_row 1 1 (codes "a") 3) ∷ (200, name_row 1 2 (codes "a") 2) ∷ [])
        ≡ 0 ∷ 200 ∷ [] }
    ensures removed { kept_at two_reached ((0, name_row 1 1 (codes "a") 2)
        ∷ (100, file_row 2 1 0 0 []) ∷ (200, name_row 1 2 (codes "b") 2)
        ∷ (300, name_row 1 3 (codes "a") 0) ∷ []) ≡ 100 ∷ 200 ∷ [] }
    ensures twins { kept_at two_reached ((0, name_row 1 1 (codes "a") 2)
        ∷ (100, file_row 2 1 0 0 []) ∷ (200, name_row 1 1 (codes "a") 2)
        ∷ (300, file_row 2 1 0 0 []) ∷ []) ≡ 200 ∷ 300 ∷ [] }
    ensures linked { kept_at two_reached ((0, file_row 2 1 0 0 [])
        ∷ (100, name_row 1 1 (codes "a") 2) ∷ (200, name_row 1 2 (codes "b") 2) ∷ [])
        ≡ 0 ∷ 100 ∷ 200 ∷ [] }
    ensures dangling { kept_at two_reached ((0, name_row 1 1 (codes "a") 3) ∷ []) ≡ [] }
    ensures ring { kept_at two_reached ((0, folder_row 2 1) ∷ (100, name_row 1 1 (codes "a") 2)
        ∷ (200, folder_row 3 1) ∷ (300, folder_row 4 1) ∷ (400, name_row 3 1 (codes "b") 4)
        ∷ (500, name_row 4 1 (codes "c") 3) ∷ []) ≡ 0 ∷ 100 ∷ [] }
{}

/// Bytes: of a write that a later one covers, and one of which a byte shows; of a file that was cut
/// and written on; of a newest node whose bytes are past the size; of a node twice.
pub fn bytes_kept()
    ensures superseded { kept_at two_reached ((0, name_row 1 1 (codes "a") 2)
        ∷ (100, file_row 2 1 3 0 (7 ∷ 7 ∷ 7 ∷ [])) ∷ (200, file_row 2 2 3 0 (8 ∷ 8 ∷ 8 ∷ [])) ∷ [])
        ≡ 0 ∷ 200 ∷ [] }
    ensures one_byte { kept_at two_reached ((0, name_row 1 1 (codes "a") 2)
        ∷ (100, file_row 2 1 3 0 (7 ∷ 7 ∷ 7 ∷ [])) ∷ (200, file_row 2 2 3 0 (8 ∷ 8 ∷ [])) ∷ [])
        ≡ 0 ∷ 100 ∷ 200 ∷ [] }
    ensures cut { kept_at two_reached ((0, name_row 1 1 (codes "a") 2)
        ∷ (100, file_row 2 1 2 0 (7 ∷ 7 ∷ [])) ∷ (200, file_row 2 2 4 2 (8 ∷ 8 ∷ []))
        ∷ (300, file_row 2 3 2 0 []) ∷ []) ≡ 0 ∷ 100 ∷ 300 ∷ [] }
    ensures newest { kept_at two_reached ((0, name_row 1 1 (codes "a") 2)
        ∷ (100, file_row 2 3 2 0 []) ∷ (200, file_row 2 2 2 0 (8 ∷ 8 ∷ []))
        ∷ (300, file_row 2 1 2 0 (7 ∷ 7 ∷ [])) ∷ []) ≡ 0 ∷ 100 ∷ 200 ∷ [] }
    ensures twins { kept_at two_reached ((0, name_row 1 1 (codes "a") 2)
        ∷ (100, file_row 2 1 2 0 (7 ∷ 7 ∷ [])) ∷ (200, file_row 2 2 2 0 [])
        ∷ (300, file_row 2 1 2 0 (7 ∷ 7 ∷ [])) ∷ []) ≡ 0 ∷ 200 ∷ 300 ∷ [] }
{}
