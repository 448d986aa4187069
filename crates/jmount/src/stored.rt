//! How an object of a mounted image is stored.

use crate::object::DeviceBytes;
use jfrag::FragOverlay;

/// An object: the attributes, the size and the number of a device that its node of highest version
/// gives, what its nodes overlay on one another, and the directory of its first name, or 0.
#[derive(Drop)]
pub struct Stored<'a> {
    pub version: u32,
    pub mode: u32,
    pub uid: u16,
    pub gid: u16,
    pub size: u32,
    pub atime: u32,
    pub mtime: u32,
    pub ctime: u32,
    pub device: Option<DeviceBytes>,
    pub directory: u32,
    pub bytes: FragOverlay<'a>,
}
