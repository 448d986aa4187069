//! Worked maps, in a block of 200 bytes, so that a character of the bar stands for four of them.
//! Each function's contract is an image and its text, and its body is empty.

ghost use Rattle.std.specs.Prelude.{◌≡◌, ◌++◌, [], ◌∷◌, Some, codes};
ghost use Rattle.jnode.specs.Vectors.{little_marker, entry_a, obsolete_a};
ghost use Rattle.jnode.specs.declared.order.Endian.TheVariants.{Little};
ghost use Rattle.jmap.specs.MapText.{map_heading, map_text};
ghost use Rattle.jmap.specs.Picture.{block_row};
ghost use Rattle.jmap.specs.Places.{Paths, path_in};

/// A marker, an entry that is kept, the same one obsolete, a copy that is not kept, and dirt.
pub fn entry_is_mapped()
    ensures { map_text Little 200 (little_marker ++ (entry_a ++ 0 ∷ 0 ∷ 0 ∷ [])
        ++ (obsolete_a ++ 0 ∷ 0 ∷ 0 ∷ []) ++ (entry_a ++ 0 ∷ 0 ∷ 0 ∷ [])
        ++ 1 ∷ 2 ∷ 3 ∷ 4 ∷ []) (12 ∷ []) ≡
        map_heading
        ++ codes "    0 00000000         44         44         44          4         64 "
        ++ codes "...###########ooooooooooo-----------!.............\n"
        ++ codes "total                  44         44         44          4         64\n" }
{}

/// A marker, an entry of the root that is kept, and erased flash, as the row of a picture.
pub fn entry_is_drawn()
    ensures { (paths : Paths) → path_in paths 1 ≡ Some []
        → block_row Little 200 (little_marker ++ entry_a) (12 ∷ []) paths 0 ≡
        codes "<text x='8' y='74'>00000000</text><svg x='80' y='64' width='1000' height='12' "
        ++ codes "viewBox='0 0 200 1' preserveAspectRatio='none'>\n"
        ++ codes "<rect class='free' x='0' width='12' height='1'>"
        ++ codes "<title>free at 00000000, 12 bytes: clean marker</title></rect>\n"
        ++ codes "<rect class='live' x='12' width='44' height='1'>"
        ++ codes "<title>live at 0000000c, 44 bytes: "
        ++ codes "entry a in directory 1, inode 2, version 1, /a</title></rect>\n"
        ++ codes "<rect class='free' x='56' width='144' height='1'>"
        ++ codes "<title>free at 00000038, 144 bytes: erased</title></rect>\n</svg>\n" }
{}
