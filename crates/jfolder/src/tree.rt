//! A tree of objects that an image can be built from.

use jsteps::DeviceKind;

/// What an object gets: its permission bits, at most 0o7777, its owners, and its time in seconds
/// since 1970.
#[derive(Clone, Copy, Debug, PartialEq, Eq)]
pub struct Attributes {
    pub mode: u32,
    pub uid: u16,
    pub gid: u16,
    pub time: u32,
}

/// What a path leads to.
#[derive(Drop)]
pub enum What {
    Directory,
    /// A regular file with the bytes of the file of the host of this name, which is not empty.
    Regular {
        file: String,
    },
    /// A device, with numbers of at most 12 and 20 bits.
    Device {
        device: DeviceKind,
        major: u16,
        minor: u32,
    },
    Fifo,
    Socket,
    Symlink {
        target: String,
    },
    /// The object of an earlier path.
    Link {
        first: String,
    },
}

/// A path from the root on, which begins with a slash, and what it leads to. The attributes of a
/// link are those of its object.
#[derive(Drop)]
pub struct Item {
    pub path: String,
    pub attributes: Attributes,
    pub what: What,
}
