//! The worked examples of plans.

ghost use Rattle.std.specs.Prelude.{◌≡◌, ◌++◌, ℕ, List, [], ◌∷◌, codes, replicate, true, false, Some, Ok, Err};
ghost use Rattle.jnode.specs.declared.node.Fill.TheVariants.{Zero, Data};
ghost use Rattle.jnode.specs.declared.node.NodeRef.TheVariants.{Entry, Inode};
ghost use Rattle.jnode.specs.Vectors.{new_file, named_a};
ghost use Rattle.jnode.specs.declared.order.Endian.TheVariants.{Little, Big};
ghost use Rattle.jsteps.specs.Device.{device_number};
ghost use Rattle.jsteps.specs.Nodes.{no_object, index_of, nodes_of};
ghost use Rattle.jsteps.specs.Planning.{plain_page, write_steps, resize_steps, piece_puts, bytes_steps};
ghost use Rattle.jsteps.specs.Refusals.{planned, is_bad_path, is_long, is_bad_mode, is_bad_target, is_too_large, takes_attributes};
ghost use Rattle.jsteps.specs.Examples.{small, nested, spent, used_up, given};
ghost use Rattle.jsteps.specs.declared.fault.OpFault.TheVariants as refused;
ghost use Rattle.jsteps.specs.declared.op.Op.TheVariants as op;
ghost use Rattle.jsteps.specs.declared.step.Step.TheVariants as step;

/// A write past the end of a file of ten bytes: zeros, and one put for each page.
pub fn two_pages()
    ensures { write_steps plain_page 0 2 10 4000 (replicate 200 1)
        ≡ step.Zero 0 2 3990 ∷ step.Put 0 2 4000 (replicate 96 1)
        ∷ step.Put 0 2 4096 (replicate 104 1) ∷ [] }
{}

/// A write inside a file, a write of no bytes, and other sizes of a file.
pub fn few_steps()
    ensures inside { write_steps plain_page 0 2 10 4 (7 ∷ []) ≡ step.Put 0 2 4 (7 ∷ []) ∷ [] }
    ensures none { write_steps plain_page 0 2 10 100 [] ≡ [] }
    ensures same { resize_steps 0 2 10 10 ≡ [] }
    ensures larger { resize_steps 0 2 4 9 ≡ step.Zero 0 2 5 ∷ [] }
    ensures smaller { resize_steps 0 2 9 4 ≡ step.Cut 0 2 4 ∷ [] }
{}

/// Larger pages cut the same bytes elsewhere, and a piece whose node would be 0x1985 bytes long
/// becomes two puts.
pub fn larger_page()
    ensures one { write_steps 8192 0 2 4000 4000 (replicate 200 1)
        ≡ step.Put 0 2 4000 (replicate 200 1) ∷ [] }
    ensures shorter { write_steps 8192 0 2 0 0 (replicate 6464 1)
        ≡ step.Put 0 2 0 (replicate 6464 1) ∷ [] }
    ensures spelling { write_steps 8192 0 2 0 0 (replicate 6465 1)
        ≡ step.Put 0 2 0 (replicate 4096 1) ∷ step.Put 0 2 4096 (replicate 2369 1) ∷ [] }
    ensures longer { write_steps 8192 0 2 0 0 (replicate 6466 1)
        ≡ step.Put 0 2 0 (replicate 6466 1) ∷ [] }
{}

/// What is refused whatever the tree.
pub fn plain_refusals()
    ensures root { is_bad_path (codes "/") ≡ true }
    ensures relative { is_bad_path (codes "a") ≡ true }
    ensures dots { is_bad_path (codes "/a/..") ≡ true }
    ensures path { is_bad_path (codes "/a") ≡ false }
    ensures long { is_long (47 ∷ replicate 255 97) ≡ true }
    ensures longest { is_long (47 ∷ replicate 254 97) ≡ false }
    ensures mode { is_bad_mode (op.Create 0 (codes "/x") 0o10000 0 0) ≡ true }
    ensures bits { is_bad_mode (op.Create 0 (codes "/x") 0o7777 0 0) ≡ false }
    ensures target { is_bad_target (op.Symlink 0 (codes "/s") (replicate 4096 97) 0 0) ≡ true }
    ensures end { is_too_large (op.Write 0 (codes "/a") 2147483646 (1 ∷ [])) ≡ false }
    ensures past_end { is_too_large (op.Write 0 (codes "/a") 2147483647 (1 ∷ [])) ≡ true }
    ensures no_data { is_too_large (op.Write 0 (codes "/a") 2147483647 []) ≡ false }
{}

/// Plans that are refused, of a tree that has the file "/a" and the name "/q" of an object that is
/// missing.
pub fn refused_plans()
    ensures root { planned small (op.Remove 0 (codes "/")) ≡ Err refused.BadPath }
    ensures below_file { planned small (op.Create 0 (codes "/a/b") 0o644 0 0)
        ≡ Err refused.NotDirectory }
    ensures taken { planned small (op.Create 0 (codes "/q") 0o644 0 0) ≡ Err refused.Exists }
    ensures dangling { planned small (op.Write 0 (codes "/q") 0 (1 ∷ [])) ≡ Err refused.NotFound }
    ensures same_name { planned small (op.Rename 0 (codes "/a") (codes "/a")) ≡ Err refused.Exists }
    ensures none { planned small (op.Rename 0 (codes "/n") (codes "/a")) ≡ Err refused.NotFound }
    ensures too_large { planned small (op.Write 0 (codes "/a") 2147483647 (1 ∷ []))
        ≡ Err refused.TooLarge }
    ensures target_taken { planned small (op.Symlink 0 (codes "/a") [] 0 0) ≡ Err refused.Exists }
    ensures target { planned small (op.Symlink 0 (codes "/n") [] 0 0) ≡ Err refused.BadTarget }
{}

/// And of a tree that has the directory "/d".
pub fn refused_of_directories()
    ensures into_itself { planned nested (op.Rename 0 (codes "/d") (codes "/d/e"))
        ≡ Err refused.IntoItself }
    ensures bytes { planned nested (op.Write 0 (codes "/d") 0 (0 ∷ [])) ≡ Err refused.WrongKind }
    ensures link { planned nested (op.Link 0 (codes "/d") (codes "/e")) ≡ Err refused.WrongKind }
{}

/// Plans of the tree with "/a" and "/q". The number of the missing object is not given again.
pub fn small_plans()
    ensures create { planned small (op.Create 7 (codes "/r") 0o644 5 6)
        ≡ Ok (step.MakeObject 7 0o100644 5 6 [] ∷ step.SetName 7 1 (codes "r") 58 ∷ []) }
    ensures remove { planned small (op.Remove 7 (codes "/q"))
        ≡ Ok (step.ClearName 7 1 (codes "q") ∷ []) }
    ensures rename { planned small (op.Rename 7 (codes "/a") (codes "/b"))
        ≡ Ok (step.SetName 7 1 (codes "b") 2 ∷ step.ClearName 7 1 (codes "a") ∷ []) }
    ensures link { planned small (op.Link 7 (codes "/a") (codes "/b"))
        ≡ Ok (step.SetName 7 1 (codes "b") 2 ∷ []) }
    ensures write { planned small (op.Write 7 (codes "/a") 6 (9 ∷ []))
        ≡ Ok (step.Zero 7 2 2 ∷ step.Put 7 2 6 (9 ∷ []) ∷ []) }
    ensures cut { planned small (op.Truncate 7 (codes "/a") 3) ≡ Ok (step.Cut 7 2 3 ∷ []) }
    ensures same { planned small (op.Truncate 7 (codes "/a") 4) ≡ Ok [] }
{}

/// The pieces of a new file's bytes, by pages of two sizes: those that a write of them at the
/// beginning has.
pub fn file_pieces()
    ensures none { bytes_steps plain_page 58 7 0o100644 5 6 []
        ≡ step.MakeObject 7 0o100644 5 6 [] ∷ [] }
    ensures page { bytes_steps plain_page 58 7 0o100644 5 6 (replicate 4096 1)
        ≡ step.MakeObject 7 0o100644 5 6 (replicate 4096 1) ∷ [] }
    ensures longer { bytes_steps plain_page 58 7 0o100644 5 6 (replicate 4097 1)
        ≡ step.MakeObject 7 0o100644 5 6 (replicate 4096 1) ∷ step.Put 7 58 4096 (1 ∷ []) ∷ [] }
    ensures spelling { bytes_steps 8192 58 7 0o100644 5 6 (replicate 6465 1)
        ≡ step.MakeObject 7 0o100644 5 6 (replicate 4096 1) ∷ step.Put 7 58 4096 (replicate 2369 1)
        ∷ [] }
{}

/// A new file with bytes, which is named last, of the tree with "/a" and "/q"; and where it is
/// refused.
pub fn file_plans()
    ensures bytes { planned small (op.File 7 (codes "/r") 0o644 5 6 (8 ∷ 9 ∷ []))
        ≡ Ok (step.MakeObject 7 0o100644 5 6 (8 ∷ 9 ∷ []) ∷ step.SetName 7 1 (codes "r") 58 ∷ []) }
    ensures none { planned small (op.File 7 (codes "/r") 0o644 5 6 [])
        ≡ planned small (op.Create 7 (codes "/r") 0o644 5 6) }
    ensures taken { planned small (op.File 7 (codes "/a") 0o644 5 6 (8 ∷ [])) ≡ Err refused.Exists }
    ensures mode { planned small (op.File 7 (codes "/r") 0o10000 5 6 []) ≡ Err refused.BadMode }
{}

/// A name in the place of another, of a tree that has the file "/a" and the name "/q" of an object
/// that is missing, and of one that has the directory "/d". Nothing is done where both are one.
pub fn replaced_names()
    ensures over { planned small (op.Replace 7 (codes "/a") (codes "/q"))
        ≡ Ok (step.SetName 7 1 (codes "q") 2 ∷ step.ClearName 7 1 (codes "a") ∷ []) }
    ensures new { planned small (op.Replace 7 (codes "/a") (codes "/b"))
        ≡ Ok (step.SetName 7 1 (codes "b") 2 ∷ step.ClearName 7 1 (codes "a") ∷ []) }
    ensures same { planned small (op.Replace 7 (codes "/a") (codes "/a")) ≡ Ok [] }
    ensures root { planned small (op.Replace 7 (codes "/a") (codes "/")) ≡ Err refused.BadPath }
    ensures dangling { planned small (op.Replace 7 (codes "/q") (codes "/a"))
        ≡ Err refused.NotFound }
    ensures directory { planned nested (op.Replace 7 (codes "/d") (codes "/e"))
        ≡ Err refused.WrongKind }
    ensures same_directory { planned nested (op.Replace 7 (codes "/d") (codes "/d"))
        ≡ Err refused.Exists }
{}

/// A file in the place of what its name stands for, in the trees with "/a" and "/q" and with "/d":
/// the steps of a new file.
pub fn put_over()
    ensures over { planned small (op.Put 7 (codes "/a") 0o644 5 6 (8 ∷ 9 ∷ []))
        ≡ Ok (step.MakeObject 7 0o100644 5 6 (8 ∷ 9 ∷ []) ∷ step.SetName 7 1 (codes "a") 58 ∷ []) }
    ensures dangling { planned small (op.Put 7 (codes "/q") 0o644 5 6 (8 ∷ 9 ∷ []))
        ≡ Ok (step.MakeObject 7 0o100644 5 6 (8 ∷ 9 ∷ []) ∷ step.SetName 7 1 (codes "q") 58 ∷ []) }
    ensures new { planned small (op.Put 7 (codes "/r") 0o644 5 6 (8 ∷ 9 ∷ []))
        ≡ planned small (op.File 7 (codes "/r") 0o644 5 6 (8 ∷ 9 ∷ [])) }
    ensures directory { planned nested (op.Put 7 (codes "/d") 0o644 5 6 (8 ∷ []))
        ≡ Err refused.Exists }
    ensures root { planned small (op.Put 7 (codes "/") 0o644 5 6 (8 ∷ [])) ≡ Err refused.BadPath }
    ensures below_file { planned small (op.Put 7 (codes "/a/b") 0o644 5 6 (8 ∷ []))
        ≡ Err refused.NotDirectory }
    ensures mode { planned small (op.Put 7 (codes "/a") 0o10000 5 6 []) ≡ Err refused.BadMode }
{}

/// A name that is removed where it is there, in the same trees: where it is not, nothing is done.
pub fn removed_names()
    ensures here { planned small (op.RemoveIf 7 (codes "/q"))
        ≡ Ok (step.ClearName 7 1 (codes "q") ∷ []) }
    ensures gone { planned small (op.RemoveIf 7 (codes "/n")) ≡ Ok [] }
    ensures none { planned small (op.Remove 7 (codes "/n")) ≡ Err refused.NotFound }
    ensures no_way { planned small (op.RemoveIf 7 (codes "/n/x")) ≡ Err refused.NotFound }
    ensures below_file { planned small (op.RemoveIf 7 (codes "/a/b")) ≡ Err refused.NotDirectory }
    ensures not_empty { planned nested (op.RemoveIf 7 (codes "/d")) ≡ Err refused.NotEmpty }
    ensures root { planned small (op.RemoveIf 7 (codes "/")) ≡ Err refused.BadPath }
{}

/// Other attributes, of the root too. Only the permission bits of the mode are other.
pub fn attribute_plans()
    ensures file { planned small (op.SetAttributes 7 (codes "/a") given)
        ≡ Ok (step.SetAttributes 7 2 given ∷ []) }
    ensures root { planned small (op.SetAttributes 7 (codes "/") given)
        ≡ Ok (step.SetAttributes 7 1 given ∷ []) }
    ensures node { nodes_of small (step.SetAttributes 7 2 given ∷ [])
        ≡ Inode (record new_file {
          version = 2;
          mode = 0o100600;
          uid = 5;
          gid = 6;
          atime = 1;
          mtime = 2;
          ctime = 7;
          isize = 4;
        }) ∷ [] }
    ensures root_node { nodes_of (index_of []) (step.SetAttributes 7 1 given ∷ [])
        ≡ Inode (record new_file
        { ino = 1; mode = 0o040600; uid = 5; gid = 6; atime = 1; mtime = 2; ctime = 7 })
        ∷ [] }
{}

/// And where they are refused.
pub fn refused_attributes()
    ensures relative { planned small (op.SetAttributes 7 (codes "a") given) ≡ Err refused.BadPath }
    ensures dangling { planned small (op.SetAttributes 7 (codes "/q") given)
        ≡ Err refused.NotFound }
    ensures none { planned small (op.SetAttributes 7 (codes "/n") given) ≡ Err refused.NotFound }
    ensures below_file { planned small (op.SetAttributes 7 (codes "/a/b") given)
        ≡ Err refused.NotDirectory }
    ensures symlink { takes_attributes (Some (record no_object { mode = 0o120777 })) ≡ false }
    ensures device { takes_attributes (Some (record no_object { mode = 0o020644 })) ≡ false }
    ensures fifo { takes_attributes (Some (record no_object { mode = 0o010644 })) ≡ true }
    ensures socket { takes_attributes (Some (record no_object { mode = 0o140755 })) ≡ true }
    ensures mode { planned small (op.SetAttributes 7 (codes "/a") (record given { mode = 0o10000 }))
        ≡ Err refused.BadMode }
{}

/// Numbers and versions that 32 bits do not hold: the last version is given, and none after it.
pub fn spent_plans()
    ensures number { planned spent (op.Create 0 (codes "/r") 0o644 0 0) ≡ Err refused.Exhausted }
    ensures last { planned spent (op.Write 0 (codes "/a") 4 (9 ∷ []))
        ≡ Ok (step.Put 0 2 4 (9 ∷ []) ∷ []) }
    ensures version { planned spent (op.Write 0 (codes "/a") 5 (9 ∷ [])) ≡ Err refused.Exhausted }
    ensures attributes { planned used_up (op.SetAttributes 0 (codes "/a") given)
        ≡ Err refused.Exhausted }
{}

/// Numbers of devices in both orders: two bytes where major and minor are of 8 bits, else four.
#[tactic(auto, unfolding(crate::specs::Device::device_number, jnode::specs::Order::bytes_in))]
pub fn device_numbers()
    ensures little { device_number Little 4 1 ≡ 1 ∷ 4 ∷ [] }
    ensures big { device_number Big 4 1 ≡ 4 ∷ 1 ∷ [] }
    ensures greatest { device_number Little 255 255 ≡ 255 ∷ 255 ∷ [] }
    ensures little_wide { device_number Little 259 65537 ≡ 1 ∷ 3 ∷ 1 ∷ 16 ∷ [] }
    ensures big_wide { device_number Big 259 65537 ≡ 16 ∷ 1 ∷ 3 ∷ 1 ∷ [] }
    ensures major { device_number Big 256 0 ≡ 0 ∷ 1 ∷ 0 ∷ 0 ∷ [] }
    ensures minor { device_number Big 0 256 ≡ 0 ∷ 16 ∷ 0 ∷ 0 ∷ [] }
    ensures most { device_number Little 4095 1048575 ≡ 255 ∷ 255 ∷ 255 ∷ 255 ∷ [] }
{}

/// The nodes of a new file of an empty image, of a device, whose size is 0, and of bytes past the
/// end of a file of four.
pub fn known_nodes()
    ensures made { nodes_of (index_of []) (step.MakeObject 0 0o100644 0 0 []
        ∷ step.SetName 0 1 (codes "a") 2 ∷ []) ≡ Inode new_file ∷ Entry named_a ∷ [] }
    ensures device { nodes_of (index_of []) (step.MakeObject 0 0o020600 0 0 (1 ∷ 4 ∷ [])
        ∷ step.SetName 0 1 (codes "a") 2 ∷ [])
        ≡ Inode (record new_file { mode = 0o020600; dsize = 2; fill = Data (1 ∷ 4 ∷ []) })
        ∷ Entry (record named_a { kind = 2 }) ∷ [] }
    ensures written { nodes_of small (step.Zero 7 2 2 ∷ step.Put 7 2 6 (9 ∷ []) ∷ [])
        ≡ Inode (record new_file {
          version = 2;
          mtime = 7;
          ctime = 7;
          isize = 6;
          offset = 4;
          dsize = 2;
          fill = Zero;
        })
        ∷ Inode (record new_file {
          version = 3;
          mtime = 7;
          ctime = 7;
          isize = 7;
          offset = 6;
          dsize = 1;
          fill = Data (9 ∷ []);
        }) ∷ [] }
    ensures cut { nodes_of small (step.Cut 7 2 3 ∷ [])
        ≡ Inode (record new_file { version = 2; mtime = 7; ctime = 7; isize = 3 }) ∷ [] }
    ensures removed { nodes_of small (step.ClearName 7 1 (codes "q") ∷ [])
        ≡ Entry (record { pino = 1; version = 3; ino = 0; mctime = 7; kind = 0; name = codes "q" })
        ∷ [] }
{}
