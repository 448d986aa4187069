//! Worked logs. Each function's contract is a log and what becomes of it, and its body is empty.

ghost use Rattle.std.specs.Prelude.{◌≡◌, ◌++◌, ℕ, List, [], ◌∷◌, length, true, false};
ghost use Rattle.jnode.specs.declared.order.Endian.TheVariants.{Little};
ghost use Rattle.jlog.specs.Places.{places, end_of_all, fit, needed, free};
ghost use Rattle.jlog.specs.Output.{output};
ghost use Rattle.jlog.specs.Left.{count_whole, intact};
ghost use Rattle.jlog.specs.Examples.{of_lengths, made, made_file, made_and_written};

/// A file is made, written, cut and written after its end: six nodes.
#[tactic(auto, unfolding(flashbase::specs::Bytes::pad4_of))]
pub fn six_places()
    ensures places { places 8192 0 (of_lengths (68 ∷ 41 ∷ 78 ∷ 68 ∷ 68 ∷ 69 ∷ []))
        ≡ (12, 68) ∷ (80, 41) ∷ (124, 78) ∷ (204, 68) ∷ (272, 68) ∷ (340, 69) ∷ [] }
    ensures end { end_of_all 8192 0 (of_lengths (68 ∷ 41 ∷ 78 ∷ 68 ∷ 68 ∷ 69 ∷ [])) ≡ 412 }
{}

/// What goes out for a file that is made.
#[tactic(auto, unfolding(flashbase::specs::Bytes::pad4_of, flashbase::specs::Crc::crc_after, flashbase::specs::Crc::push_byte, flashbase::specs::Crc::push_bits, flashbase::specs::Crc::push_bit, jnode::specs::Order::bytes_in, jnode::specs::Writing::header_bytes))]
pub fn file_is_made()
    ensures output { output Little 8192 0 made ≡ made_file }
    ensures length { length made_file ≡ 124 }
    ensures places { places 8192 0 made ≡ (12, 68) ∷ (80, 41) ∷ [] }
{}

/// How many of its nodes are after so many bytes.
#[tactic(auto, unfolding(flashbase::specs::Bytes::pad4_of))]
pub fn made_file_is_cut()
    ensures none { count_whole 0 made_file 79 ((12, 68) ∷ (80, 41) ∷ []) ≡ 0 }
    ensures one { count_whole 0 made_file 80 ((12, 68) ∷ (80, 41) ∷ []) ≡ 1 }
    ensures still_one { count_whole 0 made_file 120 ((12, 68) ∷ (80, 41) ∷ []) ≡ 1 }
    ensures both { count_whole 0 made_file 121 ((12, 68) ∷ (80, 41) ∷ []) ≡ 2 }
    ensures all { count_whole 0 made_file 124 ((12, 68) ∷ (80, 41) ∷ []) ≡ 2 }
    ensures none_intact { intact 8192 0 79 made ≡ 0 }
    ensures one_intact { intact 8192 0 80 made ≡ 1 }
    ensures still_one_intact { intact 8192 0 120 made ≡ 1 }
    ensures both_intact { intact 8192 0 121 made ≡ 2 }
    ensures all_intact { intact 8192 0 124 made ≡ 2 }
{}

/// Of a node that ends in erased bytes a cut may leave all: 196 bytes, and whole after 192.
#[tactic(auto, unfolding(flashbase::specs::Bytes::pad4_of, flashbase::specs::Crc::crc_after, flashbase::specs::Crc::push_byte, flashbase::specs::Crc::push_bits, flashbase::specs::Crc::push_bit, jnode::specs::Order::bytes_in, jnode::specs::Writing::header_bytes, jnode::specs::Writing::canonical_inode, jnode::specs::Writing::object_bytes, jnode::specs::Writing::time_bytes, jnode::specs::Writing::range_bytes, jnode::specs::Writing::inode_front))]
pub fn erased_end_is_whole()
    ensures length { length (output Little 8192 0 made_and_written) ≡ 196 }
    ensures places { places 8192 0 made_and_written ≡ (12, 68) ∷ (80, 41) ∷ (124, 71) ∷ [] }
    ensures before { count_whole 0 (output Little 8192 0 made_and_written) 191
        ((12, 68) ∷ (80, 41) ∷ (124, 71) ∷ []) ≡ 2 }
    ensures after { count_whole 0 (output Little 8192 0 made_and_written) 192
        ((12, 68) ∷ (80, 41) ∷ (124, 71) ∷ []) ≡ 3 }
    ensures intact_before { intact 8192 0 191 made_and_written ≡ 2 }
    ensures intact_after { intact 8192 0 192 made_and_written ≡ 3 }
{}

/// A directory is made and renamed.
#[tactic(auto, unfolding(flashbase::specs::Bytes::pad4_of))]
pub fn directory_is_renamed()
    ensures { places 8192 0 (of_lengths (68 ∷ 41 ∷ 41 ∷ 41 ∷ []))
        ≡ (12, 68) ∷ (80, 41) ∷ (124, 41) ∷ (168, 41) ∷ [] }
{}

/// A page that fits no more.
#[tactic(auto, unfolding(flashbase::specs::Bytes::pad4_of))]
pub fn page_does_not_fit()
    ensures end { end_of_all 8192 0 (of_lengths (68 ∷ 41 ∷ 4164 ∷ [])) ≡ 4288 }
    ensures fit { fit 8192 1 4288 (of_lengths (4164 ∷ [])) ≡ false }
    ensures needed { needed (of_lengths (4164 ∷ [])) ≡ 4164 }
    ensures free { free 8192 1 4288 ≡ 3904 }
    ensures small { fit 8192 1 4288 (of_lengths (68 ∷ [])) ≡ true }
{}

/// Two blocks: a node goes over into the second one, and three more do not fit although as many
/// bytes are free.
#[tactic(auto, unfolding(flashbase::specs::Bytes::pad4_of))]
pub fn two_blocks()
    ensures places { places 8192 0 (of_lengths (68 ∷ 41 ∷ 4164 ∷ 4164 ∷ []))
        ≡ (12, 68) ∷ (80, 41) ∷ (124, 4164) ∷ (8204, 4164) ∷ [] }
    ensures end { end_of_all 8192 0 (of_lengths (68 ∷ 41 ∷ 4164 ∷ 4164 ∷ [])) ≡ 12368 }
    ensures free { free 8192 2 124 ≡ 16248 }
    ensures needed { needed (of_lengths (4164 ∷ 4164 ∷ 4164 ∷ [])) ≡ 12492 }
    ensures unfit { fit 8192 2 124 (of_lengths (4164 ∷ 4164 ∷ 4164 ∷ [])) ≡ false }
    ensures four { needed (of_lengths (4164 ∷ 4164 ∷ 4164 ∷ 4164 ∷ [])) ≡ 16656 }
{}

/// A flash whose one block is taken.
#[tactic(auto, unfolding(flashbase::specs::Bytes::pad4_of))]
pub fn no_room()
    ensures needed { needed (of_lengths (68 ∷ 41 ∷ [])) ≡ 112 }
    ensures free { free 8192 1 8192 ≡ 0 }
    ensures unfit { fit 8192 1 8192 (of_lengths (68 ∷ 41 ∷ [])) ≡ false }
{}
