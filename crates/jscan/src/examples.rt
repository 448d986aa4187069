//! Worked blocks. Each function's contract is a block and its extents, and its body is empty.

ghost use Rattle.std.specs.Prelude.{◌≡◌, ◌++◌, [], ◌∷◌, take};
ghost use Rattle.flashbase.specs.Bytes.{erased};
ghost use Rattle.jnode.specs.declared.order.Endian.TheVariants.{Little, Big};
ghost use Rattle.jnode.specs.declared.node.Seen.TheVariants as seen;
ghost use Rattle.jnode.specs.Vectors.{little_marker, entry_a, entry_a_big, named_a, no_length, length_13, hidden_entry, inode_2, new_file};
ghost use Rattle.jnode.specs.declared.node.Damage.TheVariants.{DataCrc};
ghost use Rattle.jnode.specs.declared.node.NodeRef.TheVariants.{Entry, Inode};
ghost use Rattle.jscan.specs.Blank.{blank_from};
ghost use Rattle.jscan.specs.Image.{nodes};
ghost use Rattle.jscan.specs.Extents.{extents};
ghost use Rattle.jscan.specs.declared.extent.ExtentKind.TheVariants.{Tiled, Erased, OtherOrder, Dirt};
ghost use Rattle.jscan.specs.declared.extent.Extent.{Extent};

/// A header with totlen 0 is dirt.
pub fn no_length_is_dirt()
    ensures { extents Little 0 (no_length ++ erased 52)
        ≡ record { addr = 0; len = 12; kind = Dirt } ∷ record { addr = 12; len = 52; kind = Erased }
        ∷ [] }
{}

/// So is a header of 13 bytes where 12 are left.
pub fn past_the_end_is_dirt()
    ensures { extents Little 0 (erased 52 ++ length_13)
        ≡ record { addr = 0; len = 52; kind = Erased } ∷ record { addr = 52; len = 12; kind = Dirt }
        ∷ [] }
{}

/// A marker in the last twelve bytes is a node.
pub fn last_marker_is_seen()
    ensures { extents Little 0 (erased 52 ++ little_marker)
        ≡ record { addr = 0; len = 52; kind = Erased }
        ∷ record { addr = 52; len = 12; kind = Tiled seen.Marker } ∷ [] }
{}

/// A marker, an entry with its padding, and erased flash, at an address.
pub fn entry_is_seen()
    ensures { extents Little 8192 (little_marker ++ entry_a ++ erased 43)
        ≡ record { addr = 8192; len = 12; kind = Tiled seen.Marker }
        ∷ record { addr = 8204; len = 44; kind = Tiled (seen.Entry named_a) }
        ∷ record { addr = 8248; len = 40; kind = Erased } ∷ [] }
{}

/// A node of the other byte order begins with a word of its own kind, whichever order is the other.
pub fn other_order_is_known()
    ensures little { extents Big 0 (entry_a ++ erased 43)
        ≡ record { addr = 0; len = 4; kind = OtherOrder }
        ∷ record { addr = 4; len = 40; kind = Dirt }
        ∷ record { addr = 44; len = 40; kind = Erased } ∷ [] }
    ensures big { extents Little 0 (entry_a_big ++ erased 43)
        ≡ record { addr = 0; len = 4; kind = OtherOrder }
        ∷ record { addr = 4; len = 40; kind = Dirt }
        ∷ record { addr = 44; len = 40; kind = Erased } ∷ [] }
{}

/// The last bytes of a block, fewer than twelve, are erased only if all of them are.
pub fn rest_is_judged_whole()
    ensures dirt { extents Little 0 (erased 4 ++ 0 ∷ 0 ∷ 0 ∷ 0 ∷ [])
        ≡ record { addr = 0; len = 8; kind = Dirt } ∷ [] }
    ensures erased { extents Little 0 (erased 8)
        ≡ record { addr = 0; len = 8; kind = Erased } ∷ [] }
    ensures behind { extents Little 0 (erased 12 ++ 0 ∷ 0 ∷ 0 ∷ 0 ∷ [])
        ≡ record { addr = 0; len = 8; kind = Erased } ∷ record { addr = 8; len = 8; kind = Dirt }
        ∷ [] }
{}

/// A whole block of 4,096 bytes.
pub fn full_block()
    ensures { extents Little 0 (no_length ++ erased 4084)
        ≡ record { addr = 0; len = 12; kind = Dirt }
        ∷ record { addr = 12; len = 4084; kind = Erased } ∷ [] }
{}

/// A damaged node whose data are an entry's bytes is one tile, and hides the entry.
pub fn hidden_entry_is_not_seen()
    ensures { extents Little 0 (hidden_entry ++ erased 19)
        ≡ record { addr = 0; len = 112; kind = Tiled (seen.Damaged DataCrc) }
        ∷ record { addr = 112; len = 16; kind = Erased } ∷ [] }
{}

/// The nodes of an image with one file, whole and cut after 100 bytes.
pub fn nodes_of_a_cut_image()
    ensures whole { nodes Little 128 (little_marker ++ inode_2 ++ entry_a)
        ≡ (12, Inode new_file) ∷ (80, Entry named_a) ∷ [] }
    ensures cut { nodes Little 128 (take 100 (little_marker ++ inode_2 ++ entry_a))
        ≡ (12, Inode new_file) ∷ [] }
{}

/// Writing goes on in the second block of the cut image, and in the first one where that holds a
/// beginning of the marker alone.
pub fn blank_tail()
    ensures cut { blank_from Little 128 (take 100 (little_marker ++ inode_2 ++ entry_a)) 2 ≡ 1 }
    ensures marked { blank_from Little 128 little_marker 1 ≡ 0 }
    ensures torn { blank_from Little 128 (take 7 little_marker) 1 ≡ 0 }
    ensures none { blank_from Little 128 [] 2 ≡ 0 }
{}
