//! A worked row. Each function's contract is a row and what becomes of it, and its body is empty.

ghost use Rattle.std.specs.Prelude.{◌≡◌, [], ◌∷◌, length};
ghost use Rattle.jnode.specs.declared.order.Endian.TheVariants.{Little};
ghost use Rattle.jlog.specs.Places.{places};
ghost use Rattle.jlog.specs.Examples.{of_lengths};
ghost use Rattle.jrow.specs.Examples.{third_is_taken, three_blocks};
ghost use Rattle.jrow.specs.Row.{blank_blocks, address_in};

/// Of four blocks the third is not blank, and the fourth lies past the image's end.
pub fn third_block_is_taken()
    ensures { blank_blocks Little 8192 4 third_is_taken ≡ three_blocks }
{}

/// Three nodes of a page each go to the three blocks, and the last of them to the fourth of the
/// flash.
#[tactic(auto, unfolding(flashbase::specs::Bytes::pad4_of))]
pub fn three_pages()
    ensures places { places 8192 0 (of_lengths (4164 ∷ 4164 ∷ 4164 ∷ []))
        ≡ (12, 4164) ∷ (8204, 4164) ∷ (16396, 4164) ∷ [] }
    ensures first { address_in 8192 three_blocks 12 ≡ 12 }
    ensures second { address_in 8192 three_blocks 8204 ≡ 8204 }
    ensures third { address_in 8192 three_blocks 16396 ≡ 24588 }
{}
