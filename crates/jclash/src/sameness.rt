//! When two nodes say the same.

ghost use Rattle.std.specs.Prelude.{◌≡◌, ◌↔◌, IsTrue, length};

use flashbase::Part;
use jnode::{Dirent, Fill, InodeNode, NodeRef};

/// Whether two nodes say the same.
pub(crate) fn is_same(a: &NodeRef<'_>, b: &NodeRef<'_>) -> bool
    ensures { IsTrue result ↔ (a.now ≡ b.now) }
{
    match (a, b) {
        (NodeRef::Entry(a), NodeRef::Entry(b)) => is_same_entry(a, b),
        (NodeRef::Inode(a), NodeRef::Inode(b)) => is_same_inode(a, b),
        _ => false,
    }
}

pub(crate) fn is_same_entry(a: &Dirent<'_>, b: &Dirent<'_>) -> bool
    ensures { IsTrue result ↔ (a.now ≡ b.now) }
{
    a.pino == b.pino
        && a.version == b.version
        && a.ino == b.ino
        && a.mctime == b.mctime
        && a.kind == b.kind
        && is_same_part(&a.name, &b.name)
}

pub(crate) fn is_same_inode(a: &InodeNode<'_>, b: &InodeNode<'_>) -> bool
    ensures { IsTrue result ↔ (a.now ≡ b.now) }
{
    a.ino == b.ino
        && a.version == b.version
        && a.mode == b.mode
        && a.uid == b.uid
        && a.gid == b.gid
        && a.isize == b.isize
        && a.atime == b.atime
        && a.mtime == b.mtime
        && a.ctime == b.ctime
        && a.offset == b.offset
        && a.dsize == b.dsize
        && is_same_fill(&a.fill, &b.fill)
}

fn is_same_fill(a: &Fill<'_>, b: &Fill<'_>) -> bool
    ensures { IsTrue result ↔ (a.now ≡ b.now) }
{
    match (a, b) {
        (Fill::Zero, Fill::Zero) => true,
        (Fill::Data(a), Fill::Data(b)) => is_same_part(a, b),
        _ => false,
    }
}

pub(crate) fn is_same_part(a: &Part<'_>, b: &Part<'_>) -> bool
    ensures { IsTrue result ↔ (a.now ≡ b.now) }
{
    if a.len() != b.len() {
        return false;
    }
    let here = a.present();
    let there = b.present();
    if here.len() == there.len() {
        return here == there;
    }
    is_same_by_byte(a, b)
}

fn is_same_by_byte(a: &Part<'_>, b: &Part<'_>) -> bool
    requires { length a.now ≡ length b.now }
    ensures { IsTrue result ↔ (a.now ≡ b.now) }
{
    for i in 0..a.len() {
        if a.get(i) != b.get(i) {
            return false;
        }
    }
    true
}
