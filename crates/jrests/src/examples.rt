//! Worked blocks and rows. Each function's contract is one, and its body is empty.

ghost use Rattle.std.specs.Prelude.{◌≡◌, [], ◌∷◌, Some, None, true, false, take};
ghost use Rattle.jnode.specs.Vectors.{little_marker, entry_a};
ghost use Rattle.jnode.specs.declared.order.Endian.TheVariants.{Little};
ghost use Rattle.jlog.specs.Examples.{of_lengths};
ghost use Rattle.jrests.specs.Begun.{rest_of};
ghost use Rattle.jrests.specs.Examples.{small_block, begun_block, unmarked_block, torn_block, cut_block, dirty_block, damaged_block, five_blocks, opening, blank_row, mixed_row};
ghost use Rattle.jrests.specs.Openings.{openings, rests};
ghost use Rattle.jrests.specs.Shares.{shares, fit_in, left_out, places_in};

/// A rest begins where the last node's tile ends, whether the block has a marker or not. A block
/// with no more than a marker is blank, and a full one has none.
pub fn rests_of_blocks()
    ensures begun { rest_of Little 128 begun_block ≡ Some 56 }
    ensures unmarked { rest_of Little 128 unmarked_block ≡ Some 44 }
    ensures blank { rest_of Little 128 (small_block little_marker) ≡ None }
    ensures erased { rest_of Little 128 (small_block []) ≡ None }
    ensures full { rest_of Little 56 (take 56 begun_block) ≡ None }
{}

/// A block with a torn node, a torn header, dirt or damage is never gone on in.
pub fn never_gone_on_in()
    ensures torn { rest_of Little 128 torn_block ≡ None }
    ensures cut { rest_of Little 128 cut_block ≡ None }
    ensures dirty { rest_of Little 128 dirty_block ≡ None }
    ensures damaged { rest_of Little 128 damaged_block ≡ None }
{}

/// The openings of an image: two rests, a blank block, and one past its end.
pub fn openings_of_five()
    ensures all { openings Little 128 5 five_blocks
        ≡ opening 0 56 ∷ opening 1 0 ∷ opening 3 56 ∷ opening 4 0 ∷ [] }
    ensures rests { rests Little 128 5 five_blocks ≡ opening 0 56 ∷ opening 3 56 ∷ [] }
{}

/// Three nodes of a page each go to three blank blocks, each behind its marker, and an entry behind
/// the third of them.
#[tactic(auto, unfolding(flashbase::specs::Bytes::pad4_of))]
pub fn three_pages_and_an_entry()
    ensures { places_in 8192 (shares 8192 blank_row (of_lengths (4164 ∷ 4164 ∷ 4164 ∷ 41 ∷ [])))
        ≡ (12, 4164) ∷ (8204, 4164) ∷ (24588, 4164) ∷ (28752, 41) ∷ [] }
{}

/// In the rest of a begun block nodes stand from its beginning on, with no marker. A node that it
/// does not hold goes to the next block; the rest of the third block is too small for one.
#[tactic(auto, unfolding(flashbase::specs::Bytes::pad4_of))]
pub fn begun_before_and_between()
    ensures places { places_in 8192
        (shares 8192 mixed_row (of_lengths (4164 ∷ 41 ∷ 4000 ∷ 4164 ∷ 3900 ∷ [])))
        ≡ (4000, 4164) ∷ (8204, 41) ∷ (8248, 4000) ∷ (24676, 4164) ∷ (28840, 3900) ∷ [] }
    ensures full { left_out 8192 mixed_row (of_lengths (4164 ∷ 4164 ∷ 4164 ∷ 4164 ∷ []))
        ≡ of_lengths (4164 ∷ []) }
    ensures room { fit_in 8192 mixed_row (of_lengths (4164 ∷ 4164 ∷ 4164 ∷ [])) ≡ true }
{}
