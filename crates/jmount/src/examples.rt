//! The worked examples of file systems.

ghost use Rattle.std.specs.Prelude.{◌≡◌, ℕ, List, [], ◌∷◌, ◌++◌, codes, replicate, option_map, Some, None, Ok, Err};
ghost use Rattle.jname.specs.Live.{live};
ghost use Rattle.jnode.specs.declared.node.Fill.TheVariants as fill;
ghost use Rattle.jnode.specs.declared.node.NodeRef.TheVariants.{Entry, Inode};
ghost use Rattle.jnode.specs.declared.order.Endian.TheVariants.{Little, Big};
ghost use Rattle.jmount.specs.declared.fault.FindFault.TheVariants as fault;
ghost use Rattle.jmount.specs.declared.object.DeviceBytes.TheVariants as device;
ghost use Rattle.jmount.specs.declared.object.Kind.TheVariants as kind;
ghost use Rattle.jmount.specs.Find.{find};
ghost use Rattle.jmount.specs.Device.{device_held, major_and_minor};
ghost use Rattle.jmount.specs.Examples.{five_versions, three_versions, named_node, number_after};
ghost use Rattle.jmount.specs.Shown.{kind_of};
ghost use Rattle.jmount.specs.StateOf.{default_root, state_of, top};
ghost use Rattle.jmount.specs.Tree.{dangling, object, type_bits};

/// Written, cut, and written after its end: what the cut took away does not come back.
pub fn cut_and_written()
    ensures bytes { option_map (λ o. o.body) (object (state_of five_versions) 2)
        ≡ Some (1 ∷ 2 ∷ 3 ∷ 4 ∷ 0 ∷ 0 ∷ 0 ∷ 0 ∷ 255 ∷ []) }
    ensures top { top five_versions 2 ≡ 5 }
    ensures next { (state_of five_versions).next ≡ 3 }
{}

/// Three versions that lie over one another: the size is the newest one's, and each byte that of
/// the highest version that covers it.
pub fn three_pieces()
    ensures { option_map (λ o. o.body) (object (state_of three_versions) 2)
        ≡ Some (replicate 10 33 ++ replicate 40 11 ++ replicate 10 22 ++ replicate 40 11 ++ 0
        ∷ []) }
{}

/// A name whose object is missing: its number is taken, and no path finds it.
pub fn dangling_name()
    ensures next { (state_of (Entry (named_node 1 57) ∷ [])).next ≡ 58 }
    ensures live { live (named_node 1 57 ∷ []) (1, codes "q") ≡ Some 57 }
    ensures dangling { dangling (state_of (Entry (named_node 1 57) ∷ []))
        ≡ (1, codes "q", 57) ∷ [] }
    ensures find { find (state_of (Entry (named_node 1 57) ∷ [])) (codes "/q")
        ≡ Err fault.NotFound }
{}

/// A name that was taken away does not stand for an older one, in whatever order the nodes come.
pub fn removed_name()
    ensures in_order { live (named_node 1 57 ∷ named_node 2 0 ∷ []) (1, codes "q") ≡ None }
    ensures turned { live (named_node 2 0 ∷ named_node 1 57 ∷ []) (1, codes "q") ≡ None }
    ensures next { (state_of (Entry (named_node 2 0) ∷ Entry (named_node 1 57) ∷ [])).next ≡ 58 }
    ensures top { top (Entry (named_node 2 0) ∷ Entry (named_node 1 57) ∷ []) 1 ≡ 2 }
{}

/// No nodes: the root alone.
pub fn empty_image()
    ensures root { object (state_of []) 1 ≡ Some default_root }
    ensures next { (state_of []).next ≡ 2 }
    ensures find { find (state_of []) (codes "/") ≡ Ok 1 }
    ensures missing { find (state_of []) (codes "/q") ≡ Err fault.NotFound }
    ensures no_path { find (state_of []) (codes "/q/") ≡ Err fault.BadPath }
{}

/// The number of a device is that of its newest node; a file has none, nor has a device whose newest
/// node has three bytes.
#[tactic(auto, unfolding(crate::specs::Device::device_held))]
pub fn numbers_of_devices()
    ensures newest { number_after 0o020600 (fill.Data (3 ∷ 1 ∷ []))
        ≡ Some (Some (device.Two (3 ∷ 1 ∷ []))) }
    ensures new_form { number_after 0o060600 (fill.Data (1 ∷ 2 ∷ 3 ∷ 4 ∷ []))
        ≡ Some (Some (device.Four (1 ∷ 2 ∷ 3 ∷ 4 ∷ []))) }
    ensures zeros { number_after 0o060600 fill.Zero ≡ Some (Some (device.Two (0 ∷ 0 ∷ []))) }
    ensures three { number_after 0o060600 (fill.Data (1 ∷ 2 ∷ 3 ∷ [])) ≡ Some None }
    ensures regular { number_after 0o100600 (fill.Data (3 ∷ 1 ∷ [])) ≡ Some None }
{}

/// The numbers of /dev/null, /dev/sda15 and a device of a great number.
#[tactic(auto, unfolding(jnode::specs::Order::number_in))]
pub fn majors_and_minors()
    ensures null { major_and_minor Little (device.Two (3 ∷ 1 ∷ [])) ≡ (1, 3) }
    ensures big_null { major_and_minor Big (device.Two (1 ∷ 3 ∷ [])) ≡ (1, 3) }
    ensures disk { major_and_minor Little (device.Two (15 ∷ 8 ∷ [])) ≡ (8, 15) }
    ensures great { major_and_minor Big (device.Four (255 ∷ 255 ∷ 255 ∷ 255 ∷ []))
        ≡ (4095, 1048575) }
{}

/// What a mode says.
pub fn kinds_of_modes()
    ensures regular { kind_of (type_bits 0o100644) ≡ kind.Regular }
    ensures directory { kind_of (type_bits 0o040755) ≡ kind.Directory }
    ensures symlink { kind_of (type_bits 0o120777) ≡ kind.Symlink }
    ensures fifo { kind_of (type_bits 0o010644) ≡ kind.Fifo }
    ensures character { kind_of (type_bits 0o020644) ≡ kind.CharacterDevice }
    ensures block { kind_of (type_bits 0o060644) ≡ kind.BlockDevice }
    ensures socket { kind_of (type_bits 0o140644) ≡ kind.Socket }
    ensures other { kind_of (type_bits 0o030644) ≡ kind.Other }
    ensures high_bits { kind_of (type_bits 0xFFFF81A4) ≡ kind.Regular }
{}
