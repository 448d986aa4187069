//! What the nodes of an image say.

use flashbase::Part;

/// An entry of a directory: in the directory `pino` the name stands for the object `ino`, or for
/// none where `ino` is 0. `mctime` is in seconds; `kind` is bits 12 to 15 of the object's mode, and
/// decides nothing.
#[derive(Drop)]
pub struct Dirent<'a> {
    pub pino: u32,
    pub version: u32,
    pub ino: u32,
    pub mctime: u32,
    pub kind: u8,
    pub name: Part<'a>,
}

/// The bytes that an inode node gives for its range: zeros, or its data.
#[derive(Drop)]
pub enum Fill<'a> {
    Zero,
    Data(Part<'a>),
}

/// A version of a file, directory or other object, and of its bytes from `offset` to `offset +
/// dsize`. `isize` is the size of the whole object in bytes; the three times are in seconds.
#[derive(Drop)]
pub struct InodeNode<'a> {
    pub ino: u32,
    pub version: u32,
    pub mode: u32,
    pub uid: u16,
    pub gid: u16,
    pub isize: u32,
    pub atime: u32,
    pub mtime: u32,
    pub ctime: u32,
    pub offset: u32,
    pub dsize: u32,
    pub fill: Fill<'a>,
}

/// A version of an object as `InodeNode` is, whose `data` hold the bytes of its range compressed,
/// by the method of number `compr`; 0 and 1 are none.
#[derive(Drop)]
pub struct CompressedNode<'a> {
    pub ino: u32,
    pub version: u32,
    pub mode: u32,
    pub uid: u16,
    pub gid: u16,
    pub isize: u32,
    pub atime: u32,
    pub mtime: u32,
    pub ctime: u32,
    pub offset: u32,
    pub dsize: u32,
    pub compr: u8,
    pub data: Part<'a>,
}

impl CompressedNode<'_> {
    ghost use Rattle.std.specs.Prelude.{◌≡◌};
    ghost use Rattle.jnode.specs.Compressed.{inode_with};

    /// The inode node of the same fields that gives this for its range.
    pub fn inode_with<'b>(&self, fill: Fill<'b>) -> InodeNode<'b>
        ensures { result ≡ inode_with self.now fill.entry }
    {
        InodeNode {
            ino: self.ino,
            version: self.version,
            mode: self.mode,
            uid: self.uid,
            gid: self.gid,
            isize: self.isize,
            atime: self.atime,
            mtime: self.mtime,
            ctime: self.ctime,
            offset: self.offset,
            dsize: self.dsize,
            fill,
        }
    }
}

/// A node that says something of the file system.
#[derive(Drop)]
pub enum NodeRef<'a> {
    Entry(Dirent<'a>),
    Inode(InodeNode<'a>),
}

/// The check of a node that fails first.
#[derive(Clone, Copy, Debug, PartialEq, Eq)]
pub enum Damage {
    NodeCrc = 1,
    NameCrc,
    DataCrc,
    /// The node is too short for its fields, or its name or data do not end in its last word.
    Length,
    /// A field has a value that no such node has.
    Range,
}

impl Damage {
    ghost use Rattle.std.specs.Prelude.{◌≡◌};
    ghost use Rattle.jnode.specs.Reading.{damage_number};

    /// The number of the check, in the order of their table.
    pub fn number(self) -> u32
        ensures { result ≡ damage_number self }
    {
        self as u32
    }
}

/// What a node is seen as.
#[derive(Drop)]
pub enum Seen<'a> {
    Entry(Dirent<'a>),
    Inode(InodeNode<'a>),
    /// The clean marker of an erased block.
    Marker,
    Padding,
    /// A node whose type has the bit ACCURATE clear; it says nothing any more.
    Obsolete,
    /// An extended attribute or a reference to one.
    Attribute,
    /// A type that a reader may pass over, as a summary.
    Skippable { nodetype: u16 },
    /// A type that a reader who does not know it may not write beside.
    ReadOnly { nodetype: u16 },
    /// A type that a reader who does not know it may not mount.
    Incompatible { nodetype: u16 },
    /// A sound inode node whose data are compressed in a way that is not read.
    Compressed { compr: u8 },
    Damaged { which: Damage },
}
