//! Rows of answers, as a C caller sees them.

ghost use Rattle.std.specs.Prelude.{◌≡◌};
ghost use Rattle.jcalls.specs.Rows as rows;
ghost use Rattle.jcalls.specs.Rows.{stat_row};

use jmount::Object;

/// How many blocks, nodes and findings an image has.
#[repr(C)]
#[derive(Clone, Copy)]
pub struct Counted {
    pub blocks: u64,
    pub entries: u64,
    pub inodes: u64,
    pub findings: u64,
}

/// An object with its number: its whole mode, its owners, its size in bytes, its times in seconds.
#[repr(C)]
#[derive(Clone, Copy)]
pub struct Stat {
    pub number: u32,
    pub mode: u32,
    pub uid: u32,
    pub gid: u32,
    pub size: u32,
    pub atime: u32,
    pub mtime: u32,
    pub ctime: u32,
}

/// A name of a directory: where it stands among the names, and the object that it stands for. Where
/// that is missing, all fields of the object but the number are 0.
#[repr(C)]
#[derive(Clone, Copy)]
pub struct Entry {
    pub directory: u32,
    /// 1 where the object is there, else 0.
    pub is_there: u32,
    pub object: Stat,
    /// In bytes from the start of the names.
    pub name_at: u64,
    pub name_len: u64,
}

/// How many rows and how many bytes an answer has.
#[repr(C)]
#[derive(Clone, Copy)]
pub struct Needed {
    pub rows: u64,
    pub bytes: u64,
}

/// Bytes of an object that are asked for, and where they are.
#[repr(C)]
#[derive(Clone, Copy)]
pub struct Request {
    /// Asked: the object.
    pub number: u32,
    /// Not read, and left as it is.
    pub spare: u32,
    /// Asked: the first byte.
    pub offset: u64,
    /// Asked: how many bytes at most.
    pub length: u64,
    /// Answered: where they begin in the caller's memory.
    pub at: u64,
    /// Answered: how many there are.
    pub got: u64,
}

/// What an image tells of itself. Of a range or a number that is not known all is 0.
#[repr(C)]
#[derive(Clone, Copy)]
pub struct InfoRow {
    pub bytes: u64,
    /// 0 where no node is good, 1 for little-endian, 2 for big-endian.
    pub order: u32,
    /// The least and the greatest size of a block that the nodes allow.
    pub least_block: u32,
    pub greatest_block: u32,
    pub highest_inode: u32,
    pub highest_version: u32,
    /// 0.
    pub spare: u32,
    pub markers: u64,
    pub nodes: u64,
    /// Good headers in the other byte order.
    pub other_order: u64,
    pub entries: u64,
    pub inodes: u64,
    pub obsolete: u64,
    pub damaged: u64,
    pub other: u64,
    /// Inode nodes by how their data are stored.
    pub data_none: u64,
    pub data_zero: u64,
    pub data_rtime: u64,
    pub data_zlib: u64,
    pub data_lzo: u64,
    pub data_lzma: u64,
    pub data_other: u64,
}

/// An object as a row.
pub(crate) fn stat_row(number: u32, object: Object) -> Stat
    ensures { result ≡ stat_row number object }
{
    Stat {
        number,
        mode: object.mode,
        uid: u32::from(object.uid),
        gid: u32::from(object.gid),
        size: object.size,
        atime: object.atime,
        mtime: object.mtime,
        ctime: object.ctime,
    }
}

/// The row of an object that is missing.
pub(crate) fn missing_row(number: u32) -> Stat
    ensures { result ≡ rows.missing_row number }
{
    Stat {
        number,
        mode: 0,
        uid: 0,
        gid: 0,
        size: 0,
        atime: 0,
        mtime: 0,
        ctime: 0,
    }
}
