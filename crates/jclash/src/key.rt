//! What nodes have in common that may clash.

ghost use Rattle.std.specs.Prelude.{◌≡◌, IfOk};
ghost use Rattle.std.specs.Cow.{cow_slice_items};
ghost use Rattle.jclash.specs.Keys.{IsKeyOf};

use flashbase::Part;
use jnode::NodeRef;
use std::alloc::{AllocError, Global};
use std::borrow::CowSlice;

/// The kind of a node, the number of the directory or object, the version, and the name of an
/// entry.
pub(crate) type Key<'a> = (u8, u32, u32, CowSlice<'a, u8>);

/// The key of a node.
pub(crate) fn key_of<'a>(alloc: Global, node: &NodeRef<'a>) -> Result<Key<'a>, AllocError>
    ensures { IfOk result (IsKeyOf node.now) }
{
    match node {
        NodeRef::Entry(entry) => {
            let name = name_of(alloc, &entry.name)?;
            Ok((0, entry.pino, entry.version, name))
        }
        NodeRef::Inode(inode) => Ok((1, inode.ino, inode.version, CowSlice::Borrowed(&[]))),
    }
}

/// The bytes of a name: borrowed, or where an image lacks some of them, a copy.
fn name_of<'a>(alloc: Global, name: &Part<'a>) -> Result<CowSlice<'a, u8>, AllocError>
    ensures { IfOk result (λ bytes. cow_slice_items bytes ≡ name.now) }
{
    let present = name.present();
    if present.len() == name.len() {
        return Ok(CowSlice::Borrowed(present));
    }
    let mut copy = Vec::with_capacity(alloc, name.len())?;
    name.put_onto(&mut copy);
    Ok(CowSlice::Owned(copy))
}
