//! Where the fields of nodes are, in bytes from the node's start, and the words of the format
//! (Linux, include/uapi/linux/jffs2.h).

/// The magic that each node begins with.
pub(crate) const MAGIC: u16 = 0x1985;

/// The bit of a node type that is cleared to make the node obsolete.
pub(crate) const ACCURATE: u16 = 0x2000;

/// The fields of the header, `struct jffs2_unknown_node`.
pub(crate) mod header {
    pub(crate) const MAGIC: usize = 0;

    pub(crate) const NODETYPE: usize = 2;

    pub(crate) const TOTLEN: usize = 4;

    pub(crate) const HDR_CRC: usize = 8;

    pub(crate) const LEN: usize = 12;
}

/// The fields of an entry node, `struct jffs2_raw_dirent`; its name is after them.
pub(crate) mod entry {
    pub(crate) const PINO: usize = 12;

    pub(crate) const VERSION: usize = 16;

    pub(crate) const INO: usize = 20;

    pub(crate) const MCTIME: usize = 24;

    pub(crate) const NSIZE: usize = 28;

    pub(crate) const KIND: usize = 29;

    pub(crate) const NODE_CRC: usize = 32;

    pub(crate) const NAME_CRC: usize = 36;

    pub(crate) const LEN: usize = 40;

    /// The greatest length of a name.
    pub(crate) const NAME_MOST: u8 = 254;
}

/// The fields of an inode node, `struct jffs2_raw_inode`; its data are after them.
pub(crate) mod inode {
    pub(crate) const INO: usize = 12;

    pub(crate) const VERSION: usize = 16;

    pub(crate) const MODE: usize = 20;

    pub(crate) const UID: usize = 24;

    pub(crate) const GID: usize = 26;

    pub(crate) const ISIZE: usize = 28;

    pub(crate) const ATIME: usize = 32;

    pub(crate) const MTIME: usize = 36;

    pub(crate) const CTIME: usize = 40;

    pub(crate) const OFFSET: usize = 44;

    pub(crate) const CSIZE: usize = 48;

    pub(crate) const DSIZE: usize = 52;

    pub(crate) const COMPR: usize = 56;

    pub(crate) const DATA_CRC: usize = 60;

    pub(crate) const NODE_CRC: usize = 64;

    pub(crate) const LEN: usize = 68;

    /// How many bytes in front of it node_crc covers.
    pub(crate) const COVERED: usize = 60;
}

/// The length of a clean marker, which is a header alone.
pub const MARKER_LEN: usize = header::LEN;

/// The length of an entry node without its name.
pub const ENTRY_LEN: usize = entry::LEN;

/// The length of an inode node without its data.
pub const INODE_LEN: usize = inode::LEN;

/// Node types.
pub(crate) mod nodetype {
    pub(crate) const DIRENT: u16 = 0xE001;

    pub(crate) const INODE: u16 = 0xE002;

    pub(crate) const CLEANMARKER: u16 = 0x2003;

    pub(crate) const PADDING: u16 = 0x2004;

    pub(crate) const SUMMARY: u16 = 0x2006;

    pub(crate) const XATTR: u16 = 0xE008;

    pub(crate) const XREF: u16 = 0xE009;

    /// The bits that tell a reader which does not know a type what it may do.
    pub(crate) const COMPAT_MASK: u16 = 0xC000;

    pub(crate) const INCOMPAT: u16 = 0xC000;

    pub(crate) const ROCOMPAT: u16 = 0x8000;
}

/// Compressions of an inode node's data.
pub(crate) mod compr {
    pub(crate) const NONE: u8 = 0;

    pub(crate) const ZERO: u8 = 1;
}

/// The greatest length of a node that is written.
pub(crate) const TOTLEN_MOST: usize = 4_194_304;
