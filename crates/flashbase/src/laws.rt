//! Laws of the definitions: each is the contract of a function that does nothing.

ghost use Rattle.std.specs.Prelude.{◌≡◌, [], ◌∷◌, codes, replicate};
ghost use Rattle.flashbase.specs.Bytes.{erased_run, pad4_of};
ghost use Rattle.flashbase.specs.Crc.{crc_of};
ghost use Rattle.flashbase.specs.Laws.{CrcGoesOn, CrcIsWord, Pad4IsLeast, ErasedRunIsLongest, BelowIsBelow, EachBelowIsEach, NewestIsNewest, NewestOfNone, NewestOfOneMore, GetOfTabled, GreatestIsGreatest};

/// Checksums that are known from outside.
#[tactic(auto, unfolding(crate::specs::Crc::crc_after, crate::specs::Crc::push_byte, crate::specs::Crc::push_bits, crate::specs::Crc::push_bit))]
pub fn known_checksums()
    ensures nothing { crc_of [] ≡ 0 }
    ensures digits { crc_of (codes "123456789") ≡ 0x2DFD2D88 }
    ensures letter { crc_of (0x61 ∷ []) ≡ 0x3AB551CE }
    ensures little_marker { crc_of (0x85 ∷ 0x19 ∷ 3 ∷ 0x20 ∷ 12 ∷ 0 ∷ 0 ∷ 0 ∷ []) ≡ 0xE41EB0B1 }
    ensures byte_0 { crc_of (0 ∷ []) ≡ 0x00000000 }
    ensures byte_1 { crc_of (1 ∷ []) ≡ 0x77073096 }
    ensures byte_128 { crc_of (128 ∷ []) ≡ 0xEDB88320 }
    ensures byte_255 { crc_of (255 ∷ []) ≡ 0x2D02EF8D }
{}

/// Lengths that are padded, and a run.
#[tactic(auto, unfolding(crate::specs::Bytes::pad4_of))]
pub fn known_lengths()
    ensures none { pad4_of 0 ≡ 0 }
    ensures odd { pad4_of 41 ≡ 44 }
    ensures whole { pad4_of 44 ≡ 44 }
    ensures greatest { pad4_of 0xFFFFFFFF ≡ 0x100000000 }
    ensures run { erased_run (0xFF ∷ 0xFF ∷ 1 ∷ 0xFF ∷ []) ≡ 2 }
{}

/// The checksum goes on from what it was, so it can be taken in two parts.
pub fn crc_goes_on()
    ensures { CrcGoesOn }
{}

/// The checksum is a number of 32 bits.
pub fn crc_is_word()
    ensures { CrcIsWord }
{}

/// Padding gives the least multiple of 4.
pub fn pad4_is_least()
    ensures { Pad4IsLeast }
{}

/// The longest beginning of 0xFF, as a relation and as a number.
pub fn erased_run_is_longest()
    ensures { ErasedRunIsLongest }
{}

/// The numbers below n, by index.
pub fn below_is_below()
    ensures { BelowIsBelow }
{}

/// What a function gives below n, by index.
pub fn each_below_is_each<X>()
    ensures { EachBelowIsEach X }
{}

/// What is found as the newest is one that no other passes.
pub fn newest_is_newest<X>()
    ensures found { NewestIsNewest X }
    ensures none { NewestOfNone X }
{}

/// One more at the end is the newest only where its version is higher.
pub fn newest_of_one_more<X>()
    ensures { NewestOfOneMore X }
{}

/// What a map of keys by a function has at a key.
pub fn get_of_tabled<X>()
    ensures { GetOfTabled X }
{}

/// The greatest of some numbers.
pub fn greatest_is_greatest()
    ensures { GreatestIsGreatest }
{}
