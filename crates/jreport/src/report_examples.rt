//! Worked reports, in blocks of 96 bytes. Each function's contract is an image and its text, and
//! its body is empty.

ghost use Rattle.std.specs.Prelude.{◌≡◌, ◌++◌, [], ◌∷◌, codes};
ghost use Rattle.jnode.specs.Vectors.{little_marker, entry_a, inode_2};
ghost use Rattle.jnode.specs.declared.order.Endian.TheVariants.{Little, Big};
ghost use Rattle.jreport.specs.Report.{scan_text};
ghost use Rattle.jline.specs.Words.{escaped};

/// A marker and an entry.
pub fn entry_is_reported()
    ensures { scan_text Little 96 (little_marker ++ entry_a) ≡
        codes "block 0\n" ++ codes "00000000 marker 12\n"
        ++ codes "0000000c entry 44 pino 1 version 1 ino 2 type 8 name a\n"
        ++ codes "00000038 erased 40\n" ++ codes "total blocks 1 entries 1 inodes 0 findings 0\n" }
{}

/// A marker and an inode node.
pub fn inode_is_reported()
    ensures { scan_text Little 96 (little_marker ++ inode_2) ≡
        codes "block 0\n" ++ codes "00000000 marker 12\n"
        ++ codes "0000000c inode 68 ino 2 version 1 mode 100644 size 0 offset 0 data 0 none\n"
        ++ codes "00000050 erased 16\n" ++ codes "total blocks 1 entries 0 inodes 1 findings 0\n" }
{}

/// Of the empty image the total is reported alone.
pub fn empty_image_is_reported()
    ensures { scan_text Little 4096 [] ≡ codes "total blocks 0 entries 0 inodes 0 findings 0\n" }
{}

/// An image of the other byte order.
pub fn other_order_is_reported()
    ensures { scan_text Big 96 entry_a ≡
        codes "block 0\n" ++ codes "00000000 other-order 4\n" ++ codes "00000004 dirt 40\n"
        ++ codes "0000002c erased 52\n" ++ codes "total blocks 1 entries 0 inodes 0 findings 2\n" }
{}

/// A slash, a space and a backslash are escaped, and the last plain byte is not.
pub fn names_are_escaped()
    ensures { escaped (codes "a/ \\~") ≡ codes "a\\x2f\\x20\\x5c~" }
{}
