//! Nodes that are written, and parts that an image cuts.

use jnode::{CompressedNode, Dirent, Fill, InodeNode, Part};

pub(crate) fn entry_of(pino: u32, name: &[u8]) -> Dirent<'_> {
    Dirent {
        pino,
        version: 1,
        ino: 2,
        mctime: 0,
        kind: 8,
        name: Part::new(name, 0),
    }
}

/// The file of object 2 when it is new.
pub(crate) fn new_file<'a>() -> InodeNode<'a> {
    InodeNode {
        ino: 2,
        version: 1,
        mode: 0o100644,
        uid: 0,
        gid: 0,
        isize: 0,
        atime: 0,
        mtime: 0,
        ctime: 0,
        offset: 0,
        dsize: 0,
        fill: Fill::Data(Part::new(&[], 0)),
    }
}

/// A write of object 2 whose fields are all unlike.
pub(crate) fn write_of(data: &[u8], dsize: u32) -> InodeNode<'_> {
    InodeNode {
        ino: 2,
        version: 2,
        mode: 0o100644,
        uid: 5,
        gid: 6,
        isize: 104,
        atime: 7,
        mtime: 8,
        ctime: 9,
        offset: 100,
        dsize,
        fill: Fill::Data(Part::new(data, 0)),
    }
}

/// The range of zeros after that write.
pub(crate) fn zeros_of_96<'a>() -> InodeNode<'a> {
    InodeNode {
        version: 3,
        uid: 0,
        gid: 0,
        isize: 200,
        atime: 1,
        mtime: 2,
        ctime: 3,
        offset: 104,
        dsize: 96,
        fill: Fill::Zero,
        ..write_of(b"", 0)
    }
}

/// The node of `compressed_5`.
pub(crate) fn compressed_of_5<'a>() -> CompressedNode<'a> {
    CompressedNode {
        ino: 0x0102_0304,
        version: 18,
        mode: 0o100640,
        uid: 0x0506,
        gid: 0x0708,
        isize: 1000,
        atime: 21,
        mtime: 22,
        ctime: 23,
        offset: 24,
        dsize: 26,
        compr: 6,
        data: Part::new(b"abcd\xff", 0),
    }
}

/// The first n bytes, or as many as there are.
pub(crate) fn start_of(bytes: &[u8], n: usize) -> &[u8] {
    bytes.get(..n).unwrap_or(bytes)
}

/// What an image holds of these bytes where it ends after n of them.
pub(crate) fn cut_after(bytes: &[u8], n: usize) -> Part<'_> {
    let present = n.min(bytes.len());
    Part::new(&bytes[..present], bytes.len() - present)
}
