//! Worked histories. Each function's contract is nodes and their words, or an image and its text,
//! and its body is empty.

ghost use Rattle.std.specs.Prelude.{◌≡◌, ◌++◌, [], ◌∷◌, None, Some, codes};
ghost use Rattle.std.specs.BTreeMap.{get};
ghost use Rattle.std.specs.Ordering.{nat_cmp};
ghost use Rattle.jnode.specs.Vectors.{little_marker, entry_a, obsolete_a};
ghost use Rattle.jnode.specs.declared.order.Endian.TheVariants.{Little};
ghost use Rattle.jcompact.specs.Examples.{file_row, folder_row, name_row, two_reached};
ghost use Rattle.jhistory.specs.HistoryText.{history_text};
ghost use Rattle.jhistory.specs.NodeWords.{Words};
ghost use Rattle.jhistory.specs.WordExamples.{all_since, words_of_rows};
ghost use Rattle.jhistory.specs.declared.word.NodeWord.TheVariants.{Live, Superseded, Deleted, Deletion, Unreached};

/// Names: of an entry that a newer one replaced, of a deletion and what it took away, of one name
/// twice, of an object that is missing, and in a directory that is.
pub fn names_have_words()
    ensures replaced { words_of_rows two_reached ((0, file_row 2 1 0 0 [])
        ∷ (100, name_row 1 1 (codes "a") 3) ∷ (200, name_row 1 2 (codes "a") 2) ∷ [])
        ≡ Live ∷ Superseded ∷ Live ∷ [] }
    ensures deleted { words_of_rows two_reached ((0, name_row 1 1 (codes "a") 2)
        ∷ (100, file_row 2 1 0 0 []) ∷ (200, name_row 1 2 (codes "b") 2)
        ∷ (300, name_row 1 3 (codes "a") 0) ∷ []) ≡ Deleted ∷ Live ∷ Live ∷ Deletion ∷ [] }
    ensures twins { words_of_rows two_reached ((0, name_row 1 1 (codes "a") 2)
        ∷ (100, file_row 2 1 0 0 []) ∷ (200, name_row 1 1 (codes "a") 2) ∷ [])
        ≡ Superseded ∷ Live ∷ Live ∷ [] }
    ensures dangling { words_of_rows two_reached ((0, name_row 1 1 (codes "a") 3)
        ∷ (100, name_row 4 1 (codes "a") 3) ∷ []) ≡ Unreached ∷ Unreached ∷ [] }
{}

/// Objects: of a write that a later one covers; of a file whose name was deleted; and of one whose
/// name is in a directory that no names lead to.
pub fn objects_have_words()
    ensures superseded { words_of_rows two_reached ((0, name_row 1 1 (codes "a") 2)
        ∷ (100, file_row 2 1 1 0 (7 ∷ [])) ∷ (200, file_row 2 2 1 0 (8 ∷ [])) ∷ [])
        ≡ Live ∷ Superseded ∷ Live ∷ [] }
    ensures deleted { words_of_rows two_reached ((0, name_row 1 1 (codes "a") 3)
        ∷ (100, file_row 3 1 0 0 []) ∷ (200, name_row 1 2 (codes "a") 0) ∷ [])
        ≡ Deleted ∷ Deleted ∷ Deletion ∷ [] }
    ensures unreached { words_of_rows two_reached ((0, folder_row 4 1)
        ∷ (100, name_row 4 2 (codes "a") 5) ∷ (200, file_row 5 1 0 0 []) ∷ [])
        ≡ Deleted ∷ Unreached ∷ Unreached ∷ [] }
{}

/// An image of a marker, an entry, the same one marked obsolete, and erased flash: whose entry is
/// live, as a text.
pub fn entry_is_told()
    ensures { (words : Words) → get nat_cmp words 12 ≡ Some Live
        → history_text Little 200 (little_marker ++ (entry_a ++ 0 ∷ 0 ∷ 0 ∷ []) ++ obsolete_a)
        words (all_since None) ≡
        codes "0000000c live entry pino 1 version 1 ino 2 mctime 0 type 8 name a\n"
        ++ codes "00000038 obsolete length 44\n"
        ++ codes "total live 1 superseded 0 deleted 0 deletion 0 unreached 0 obsolete 1\n" }
{}

/// The same image: no node has a time after 0, and of the obsolete one that is not known.
pub fn entry_is_earlier()
    ensures { (words : Words)
        → history_text Little 200 (little_marker ++ (entry_a ++ 0 ∷ 0 ∷ 0 ∷ []) ++ obsolete_a)
        words (all_since (Some 1)) ≡
        codes "total live 0 superseded 0 deleted 0 deletion 0 unreached 0 obsolete 0\n" }
{}
