//! Laws of mounting through. Each function's contract is a law, and its body is empty.

ghost use Rattle.jthrough.specs.Addressed as addressed;
ghost use Rattle.jthrough.specs.Plain.{PlainIsMounted, MountIsPlain};

/// An image without compressed nodes mounts through just where it mounts, as the same file system,
/// and else has the same fault at the same address.
pub fn plain_is_mounted()
    ensures through { PlainIsMounted }
    ensures plain { MountIsPlain }
{}

/// The nodes with their addresses are the expanded nodes, in the order of their addresses, and may
/// be mounted.
pub fn addressed_are_expanded()
    ensures expanded { addressed.AddressedAreExpanded }
    ensures ordered { addressed.AddressedAreByAddress }
    ensures mountable { addressed.AddressedAreMountable }
{}

/// What a view leaves has the contents of all compressed nodes, if the image is sound.
pub fn view_holds_contents()
    ensures { addressed.ViewHoldsContents }
{}
