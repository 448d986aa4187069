//! Worked nodes and their lines. Each function's contract has them, and its body is empty.

ghost use Rattle.std.specs.Prelude.{◌≡◌, ◌++◌, [], codes};
ghost use Rattle.jnode.specs.Vectors.{entry_a, inode_2};
ghost use Rattle.jnode.specs.Writing.{canonical};
ghost use Rattle.jnode.specs.declared.node.NodeRef.TheVariants.{Inode};
ghost use Rattle.jnode.specs.declared.order.Endian.TheVariants.{Little};
ghost use Rattle.jlog.specs.Examples.{three_bytes};
ghost use Rattle.jcuts.specs.Standing.{whole_len};
ghost use Rattle.jcuts.specs.Lines.{node_line, weak_line, text_of_node, end_line};
ghost use Rattle.jcuts.specs.declared.lines.Telling.TheVariants.{Nodes, WeakNotes};
ghost use Rattle.jcuts.specs.Examples.{told_of};

/// The inode node and the entry node of a file that is made are whole with their last byte, and a
/// node of three bytes of 0xFF without them.
#[tactic(auto, unfolding(flashbase::specs::Crc::crc_after, flashbase::specs::Crc::push_byte, flashbase::specs::Crc::push_bits, flashbase::specs::Crc::push_bit, jnode::specs::Order::bytes_in, jnode::specs::Writing::header_bytes, jnode::specs::Writing::canonical_inode, jnode::specs::Writing::object_bytes, jnode::specs::Writing::time_bytes, jnode::specs::Writing::range_bytes, jnode::specs::Writing::inode_front))]
pub fn known_whole_lens()
    ensures inode { whole_len inode_2 ≡ 68 }
    ensures entry { whole_len entry_a ≡ 41 }
    ensures erased { whole_len (canonical Little (Inode three_bytes)) ≡ 68 }
{}

/// A file is made: two nodes.
pub fn made_is_told()
    ensures inode { node_line (told_of 1 1 2 12 68 80 None)
        ≡ codes "0000000c 68 line 1 step 1 of 2 stands from 00000050\n" }
    ensures entry { node_line (told_of 1 2 2 80 41 121 None)
        ≡ codes "00000050 41 line 1 step 2 of 2 stands from 00000079\n" }
    ensures end { end_line 1 2 0 124 0
        ≡ codes "total operations 1 steps 2 from 00000000 to 0000007c weak 0\n" }
{}

/// Three bytes of 0xFF are written to it; or five bytes whose node is weak.
pub fn written_is_told()
    ensures erased { node_line (told_of 2 1 1 124 71 192 None)
        ≡ codes "0000007c 71 line 2 step 1 of 1 stands from 000000c0\n" }
    ensures line { weak_line 124 68 ≡ codes "weak 0000007c at 68\n" }
    ensures weak { text_of_node Nodes (told_of 2 1 1 124 73 197 (Some 68))
        ≡ codes "0000007c 73 line 2 step 1 of 1 stands from 000000c5\n"
        ++ codes "weak 0000007c at 68\n" }
    ensures note { text_of_node WeakNotes (told_of 2 1 1 124 73 197 (Some 68))
        ≡ codes "jffs2_image: note: weak 0000007c at 68\n" }
    ensures none { text_of_node WeakNotes (told_of 2 1 1 124 71 192 None) ≡ [] }
{}
