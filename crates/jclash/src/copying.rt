//! A node once more.

ghost use Rattle.std.specs.Prelude.{◌≡◌};

use jnode::{Dirent, Fill, InodeNode, NodeRef};

/// The same node, of the same bytes.
pub(crate) fn copied<'a>(node: &NodeRef<'a>) -> NodeRef<'a>
    ensures { result ≡ node.now }
{
    match node {
        NodeRef::Entry(entry) => NodeRef::Entry(copied_entry(entry)),
        NodeRef::Inode(inode) => NodeRef::Inode(copied_inode(inode)),
    }
}

fn copied_entry<'a>(entry: &Dirent<'a>) -> Dirent<'a>
    ensures { result ≡ entry.now }
{
    Dirent {
        pino: entry.pino,
        version: entry.version,
        ino: entry.ino,
        mctime: entry.mctime,
        kind: entry.kind,
        name: entry.name.copied(),
    }
}

fn copied_inode<'a>(node: &InodeNode<'a>) -> InodeNode<'a>
    ensures { result ≡ node.now }
{
    let fill = match &node.fill {
        Fill::Zero => Fill::Zero,
        Fill::Data(bytes) => Fill::Data(bytes.copied()),
    };
    InodeNode {
        ino: node.ino,
        version: node.version,
        mode: node.mode,
        uid: node.uid,
        gid: node.gid,
        isize: node.isize,
        atime: node.atime,
        mtime: node.mtime,
        ctime: node.ctime,
        offset: node.offset,
        dsize: node.dsize,
        fill,
    }
}
