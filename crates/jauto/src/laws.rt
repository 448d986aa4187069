//! Laws of `--auto`. Each function's contract is a law, and its body is empty.
ghost use Rattle.std.specs.Prelude.{◌≡◌, true, false, None, Some, codes};
ghost use Rattle.jnode.specs.declared.order.Endian.TheVariants.{Little, Big};
ghost use Rattle.jcommand.specs.Parsed.{options_of};
ghost use Rattle.jauto.specs.AutoLaws.{FoundAreTold, LeavingMakesNothing, LookingMakesNothing};
ghost use Rattle.jauto.specs.Taking.{taking_by};
ghost use Rattle.jauto.specs.TakingText.{left_line, taken_line, unclear_line};
ghost use Rattle.jauto.specs.declared.taking.Taking.TheVariants as taking;

/// Nothing is made when options are found, or spare bytes, and the options are those of the bytes
/// that were read.
pub fn options_are_found()
    ensures nothing_made { LookingMakesNothing }
    ensures spare { LeavingMakesNothing }
    ensures told { FoundAreTold }
{}

/// What is taken, and what is said of it.
pub fn known_takings()
    ensures read { taking_by false (Some (record { least = 8192; greatest = 65536 })) (Some Little)
        ≡ taking.Taken (options_of 65536 Little) }
    ensures read_unknown { taking_by false None (Some Big)
        ≡ taking.Taken (options_of 4194304 Big) }
    ensures written { taking_by true (Some (record { least = 8192; greatest = 8192 })) (Some Little)
        ≡ taking.Taken (options_of 8192 Little) }
    ensures unclear { taking_by true (Some (record { least = 8192; greatest = 65536 })) (Some Big)
        ≡ taking.Unclear Big (Some (record { least = 8192; greatest = 65536 })) }
    ensures nothing { taking_by true None None ≡ taking.Nothing }
    ensures taken_text { taken_line (options_of 131072 Little)
        ≡ codes "jffs2_image: note: little-endian, blocks of 131072\n" }
    ensures left_text { left_line (record { page = 2048; spare = 64 })
        ≡ codes "jffs2_image: note: left out: 64 spare bytes after each 2048\n" }
    ensures unclear_text { unclear_line Big (Some (record { least = 8192; greatest = 65536 }))
        ≡ codes "jffs2_image: note: big-endian, blocks of 8192 to 65536 fit; give --block\n" }
{}
