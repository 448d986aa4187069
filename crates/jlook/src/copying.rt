//! A sighted tile once more.

ghost use Rattle.std.specs.Prelude.{◌≡◌};

use jnode::{Dirent, Fill, InodeNode, Seen};

fn copied_entry<'a>(entry: &Dirent<'a>) -> Dirent<'a>
    ensures { result ≡ entry.now }
{
    Dirent {
        pino: entry.pino,
        version: entry.version,
        ino: entry.ino,
        mctime: entry.mctime,
        kind: entry.kind,
        name: entry.name.copied(),
    }
}

fn copied_inode<'a>(node: &InodeNode<'a>) -> InodeNode<'a>
    ensures { result ≡ node.now }
{
    let fill = match &node.fill {
        Fill::Zero => Fill::Zero,
        Fill::Data(bytes) => Fill::Data(bytes.copied()),
    };
    InodeNode {
        ino: node.ino,
        version: node.version,
        mode: node.mode,
        uid: node.uid,
        gid: node.gid,
        isize: node.isize,
        atime: node.atime,
        mtime: node.mtime,
        ctime: node.ctime,
        offset: node.offset,
        dsize: node.dsize,
        fill,
    }
}

/// What a tile is seen as, of the same bytes.
pub(crate) fn copied<'a>(seen: &Seen<'a>) -> Seen<'a>
    ensures { result ≡ seen.now }
{
    match seen {
        Seen::Entry(entry) => Seen::Entry(copied_entry(entry)),
        Seen::Inode(node) => Seen::Inode(copied_inode(node)),
        Seen::Marker => Seen::Marker,
        Seen::Padding => Seen::Padding,
        Seen::Obsolete => Seen::Obsolete,
        Seen::Attribute => Seen::Attribute,
        Seen::Skippable { nodetype } => Seen::Skippable {
            nodetype: *nodetype,
        },
        Seen::ReadOnly { nodetype } => Seen::ReadOnly {
            nodetype: *nodetype,
        },
        Seen::Incompatible { nodetype } => Seen::Incompatible {
            nodetype: *nodetype,
        },
        Seen::Compressed { compr } => Seen::Compressed { compr: *compr },
        Seen::Damaged { which } => Seen::Damaged { which: *which },
    }
}
