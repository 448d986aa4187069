//! An object as callers see it, and its bytes.

ghost use Rattle.std.specs.Prelude.{◌≡◌, ◌==◌, ◌||◌};
ghost use Rattle.jmount.specs.Tree.{type_bits, directory_bits, regular_bits, symlink_bits, is_device};
ghost use Rattle.jmount.specs.Shown.{kind_of, shown};
ghost use Rattle.jmount.specs.Stored.{stored_object};

use crate::object::{Kind, Object};
use crate::stored::Stored;

/// Bits 12 to 15 of a FIFO's mode (Linux, include/uapi/linux/stat.h).
pub const FIFO_BITS: u32 = 1;

/// Those of a character device's.
const CHARACTER_BITS: u32 = 2;

/// Those of a directory's.
pub const DIRECTORY_BITS: u32 = 4;

/// Those of a block device's.
const BLOCK_BITS: u32 = 6;

/// Those of a regular file's.
pub const REGULAR_BITS: u32 = 8;

/// Those of a symlink's.
const SYMLINK_BITS: u32 = 10;

/// Those of a socket's.
pub const SOCKET_BITS: u32 = 12;

/// An object as callers see it.
pub fn shown(stored: &Stored<'_>) -> Object
    ensures { result ≡ shown (stored_object stored.now) }
{
    Object {
        kind: kind_of(stored.mode),
        mode: stored.mode,
        uid: stored.uid,
        gid: stored.gid,
        size: stored.size,
        atime: stored.atime,
        mtime: stored.mtime,
        ctime: stored.ctime,
        device: stored.device,
    }
}

/// The kind of object that a mode says.
pub fn kind_of(mode: u32) -> Kind
    ensures { result ≡ kind_of (type_bits mode) }
{
    match type_bits(mode) {
        FIFO_BITS => Kind::Fifo,
        CHARACTER_BITS => Kind::CharacterDevice,
        DIRECTORY_BITS => Kind::Directory,
        BLOCK_BITS => Kind::BlockDevice,
        REGULAR_BITS => Kind::Regular,
        SYMLINK_BITS => Kind::Symlink,
        SOCKET_BITS => Kind::Socket,
        _ => Kind::Other,
    }
}

/// Whether a mode says that an object is a directory.
pub fn is_directory(mode: u32) -> bool
    ensures { result ≡ (type_bits mode == directory_bits) }
{
    type_bits(mode) == DIRECTORY_BITS
}

/// Whether a mode says that an object has bytes: that it is a regular file or a symlink.
pub fn has_bytes(mode: u32) -> bool
    ensures { result ≡ (type_bits mode == regular_bits || type_bits mode == symlink_bits) }
{
    matches!(type_bits(mode), REGULAR_BITS | SYMLINK_BITS)
}

/// Whether a mode says that an object is a character or a block device.
pub fn is_device(mode: u32) -> bool
    ensures { result ≡ is_device mode }
{
    matches!(type_bits(mode), CHARACTER_BITS | BLOCK_BITS)
}

/// Bits 12 to 15 of a mode, which say the kind of an object (Linux, include/uapi/linux/stat.h).
pub fn type_bits(mode: u32) -> u32
    ensures { result ≡ type_bits mode }
{
    (mode >> 12) & 0xF
}
