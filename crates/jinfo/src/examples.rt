//! Worked examples. Each function's contract has numbers and no variables, and its body is empty.

ghost use Rattle.std.specs.Prelude.{◌≡◌, ◌++◌, [], ◌∷◌, Some, None, true, false};
ghost use Rattle.jnode.specs.Vectors.{little_marker, entry_a_big};
ghost use Rattle.jnode.specs.declared.order.Endian.TheVariants.{Little, Big};
ghost use Rattle.jnode.specs.declared.node.Seen.TheVariants.{Marker, Padding};
ghost use Rattle.jscan.specs.declared.extent.ExtentKind.TheVariants.{Tiled, Erased};
ghost use Rattle.jinfo.specs.BlockSizes.{is_multiple, lies_within, may_be_size, size_range_of};
ghost use Rattle.jinfo.specs.Containers.{container_of};
ghost use Rattle.jinfo.specs.Infos.{order_of};
ghost use Rattle.jinfo.specs.declared.container.Container.TheVariants.{Gzip, Xz};

/// The byte order of a few images.
pub fn known_orders()
    ensures nothing { order_of [] ≡ None }
    ensures marker { order_of little_marker ≡ Some Little }
    ensures more_in_big_order { order_of
        (little_marker ++ entry_a_big ++ 255 ∷ 255 ∷ 255 ∷ entry_a_big) ≡ Some Big }
{}

/// Where a node may lie in blocks of 4096 bytes.
#[tactic(auto, unfolding(crate::specs::BlockSizes::lies_within, crate::specs::BlockSizes::is_multiple))]
pub fn known_places()
    ensures up_to_the_end { lies_within 4084 12 4096 ≡ true }
    ensures past_the_end { lies_within 4088 12 4096 ≡ false }
    ensures at_a_block { lies_within 4096 4096 4096 ≡ true }
    ensures marker { is_multiple 8192 4096 ≡ true }
    ensures no_marker { is_multiple 8192 16384 ≡ false }
{}

/// Which sizes the blocks of a few images may have: clean markers at 0 and 12288 alone, and with a
/// node of 5000 bytes, which no block of 4096 holds.
#[tactic(auto, unfolding(crate::specs::BlockSizes::lies_within, crate::specs::BlockSizes::is_multiple))]
pub fn known_sizes()
    ensures of_12288 { may_be_size (record { addr = 0; len = 12; kind = Tiled Marker }
        ∷ record { addr = 12288; len = 12; kind = Tiled Marker } ∷ []) 12288 ≡ true }
    ensures of_4096 { may_be_size (record { addr = 0; len = 12; kind = Tiled Marker }
        ∷ record { addr = 12288; len = 12; kind = Tiled Marker } ∷ []) 4096 ≡ true }
    ensures no_divisor { may_be_size (record { addr = 0; len = 12; kind = Tiled Marker }
        ∷ record { addr = 12288; len = 12; kind = Tiled Marker } ∷ []) 8192 ≡ false }
    ensures long_enough { may_be_size (record { addr = 12; len = 5000; kind = Tiled Padding }
        ∷ record { addr = 12288; len = 12; kind = Tiled Marker } ∷ []) 6144 ≡ true }
    ensures too_short { may_be_size (record { addr = 12; len = 5000; kind = Tiled Padding }
        ∷ record { addr = 12288; len = 12; kind = Tiled Marker } ∷ []) 4096 ≡ false }
    ensures unknown { size_range_of (record { addr = 0; len = 12; kind = Tiled Marker } ∷ [])
        ≡ None }
{}

/// What a few files begin as.
pub fn known_beginnings()
    ensures gzip { container_of (0x1F ∷ 0x8B ∷ 8 ∷ []) ≡ Some Gzip }
    ensures xz { container_of (0xFD ∷ 0x37 ∷ 0x7A ∷ 0x58 ∷ 0x5A ∷ 0 ∷ 0 ∷ []) ≡ Some Xz }
    ensures short { container_of (0x1F ∷ []) ≡ None }
    ensures a_marker { container_of little_marker ≡ None }
{}
