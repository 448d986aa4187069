//! Worked examples. Each function's contract has numbers and no variables, and its body is empty.
ghost use Rattle.std.specs.Prelude.{◌≡◌, None, Some, codes};
ghost use Rattle.jnode.specs.declared.order.Endian.TheVariants.{Little, Big};
ghost use Rattle.jhint.specs.Hints.{hint_by, hint_line};

/// What is hinted at of images that were read with options that are theirs, and with others.
pub fn known_hints()
    ensures theirs { hint_by Little 65536 (Some Little)
        (Some (record { least = 16384; greatest = 131072 })) ≡ None }
    ensures unknown_size { hint_by Big 8192 (Some Big) None ≡ None }
    ensures no_node { hint_by Little 8192 None None ≡ None }
    ensures other_order { hint_by Little 65536 (Some Big)
        (Some (record { least = 65536; greatest = 131072 }))
        ≡ Some (record { order = Big; block = 131072 }) }
    ensures too_small { hint_by Little 8192 (Some Little)
        (Some (record { least = 16384; greatest = 131072 }))
        ≡ Some (record { order = Little; block = 131072 }) }
    ensures too_large { hint_by Little 262144 (Some Little)
        (Some (record { least = 16384; greatest = 131072 }))
        ≡ Some (record { order = Little; block = 131072 }) }
    ensures other_order_alone { hint_by Big 65536 (Some Little) None
        ≡ Some (record { order = Little; block = 4194304 }) }
    ensures text { hint_line (record { order = Big; block = 131072 })
        ≡ codes "jffs2_image: note: this looks like --endian big --block 131072 (or --auto)\n" }
{}
