//! What callers see of an object.

/// What an object is, by bits 12 to 15 of its mode (Linux, `include/uapi/linux/stat.h`).
#[derive(Clone, Copy, Debug, PartialEq, Eq)]
pub enum Kind {
    Fifo,
    CharacterDevice,
    Directory,
    BlockDevice,
    Regular,
    Symlink,
    Socket,
    /// Bits that name no kind.
    Other,
}

/// The greatest length of a symlink's target: a path of Linux without its zero byte (Linux,
/// include/uapi/linux/limits.h: `PATH_MAX`).
pub const GREATEST_TARGET: usize = 4095;

/// The number of a device, as its bytes lie: two of the old form, major and then minor in 16 bits,
/// or four of the new one (Linux, `include/linux/kdev_t.h`). They are in the order of the image.
#[derive(Clone, Copy, Debug, PartialEq, Eq)]
pub enum DeviceBytes {
    Two([u8; 2]),
    Four([u8; 4]),
}

/// An object: its kind, its whole mode, its owners, its size in bytes, its times in seconds, and if
/// it is a device that has one, its number.
#[derive(Clone, Copy, Debug, PartialEq, Eq)]
pub struct Object {
    pub kind: Kind,
    pub mode: u32,
    pub uid: u16,
    pub gid: u16,
    pub size: u32,
    pub atime: u32,
    pub mtime: u32,
    pub ctime: u32,
    pub device: Option<DeviceBytes>,
}
