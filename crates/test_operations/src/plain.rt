//! A plain file system: files that have their bytes in a list, and names in the root.

use byteorder::{BigEndian, LittleEndian};
use jmount::{DeviceBytes, Kind, Mounted, Object};
use std::alloc::{AllocError, Global};

/// A step on plain files. A file goes by its place among all that were made.
#[derive(Clone, Copy)]
pub enum Change {
    /// A new object: its mode, of how many bytes 0x5A it is, and the time.
    Make(u32, usize, u32),
    /// A new device: its mode, its major and minor number, and the time.
    Device(u32, u16, u32, u32),
    /// A new symlink: its target and the time.
    Link(&'static [u8], u32),
    /// A name and its object.
    Name(&'static [u8], u32),
    /// A name that goes.
    Clear(&'static [u8]),
    /// Bytes of a file: the offset, the bytes and the time.
    Put(usize, usize, &'static [u8], u32),
    /// So many bytes 0x5A of a file from an offset on, and the time.
    Fill(usize, usize, usize, u32),
    /// Zeros of a file up to a size, and the time.
    Zero(usize, usize, u32),
    /// A file that is cut to a size, and the time.
    Cut(usize, usize, u32),
    /// Permissions of the root, with the attributes of `test_operations`, and the time.
    Root(u32, u32),
    /// The same of a file.
    Attributes(usize, u32, u32),
}

/// What `write` writes.
const BYTES: [u8; 16_384] = [0x5A; 16_384];

#[derive(Drop)]
struct File {
    object: Object,
    number: Option<(u16, u32)>,
    bytes: Vec<u8>,
}

/// The root's attributes, files whose numbers are 2, 3 and so on, and the names that these tests
/// use, in byte order.
#[derive(Drop)]
pub struct Plain {
    root: Object,
    files: Vec<File>,
    names: [(&'static [u8], Option<u32>); 4],
}

impl File {
    fn object(&self) -> Object {
        Object {
            size: self.bytes.len().min(1_000_000) as u32,
            ..self.object
        }
    }

    /// Whether a mount shows this file as the object of this number.
    fn is_object(&self, ino: u32, shown: Option<(u32, Object)>) -> bool {
        let Some((number, object)) = shown else {
            return false;
        };
        let plain = Object {
            device: None,
            ..object
        };
        number == ino && plain == self.object() && is_number(object.device, self.number)
    }

    /// The bytes that a reader gets: those of a regular file, and a symlink's target.
    fn readable(&self) -> &[u8] {
        match self.object.kind {
            Kind::Regular | Kind::Symlink => self.bytes.as_slice(),
            _ => &[],
        }
    }

    fn put(&mut self, offset: usize, bytes: &[u8]) -> Result<(), AllocError> {
        for (k, byte) in bytes.iter().enumerate() {
            match self.bytes.get_mut(offset.wrapping_add(k)) {
                Some(old) => *old = *byte,
                None => self.bytes.push(*byte)?,
            }
        }
        Ok(())
    }

    /// Takes a step on this file.
    fn take(&mut self, change: &Change) -> Result<(), AllocError> {
        let time = match *change {
            Change::Put(_, offset, bytes, time) => {
                self.put(offset, bytes)?;
                time
            }
            Change::Fill(_, offset, count, time) => {
                self.put(offset, BYTES.get(..count).unwrap_or(&BYTES))?;
                time
            }
            Change::Zero(_, size, time) => {
                self.bytes.resize(size, 0)?;
                time
            }
            Change::Cut(_, size, time) => {
                self.bytes.truncate(size);
                time
            }
            Change::Attributes(_, permissions, time) => {
                self.object = with_attributes(self.object, permissions, time);
                return Ok(());
            }
            _ => return Ok(()),
        };
        self.object.mtime = time;
        self.object.ctime = time;
        Ok(())
    }
}

/// What kind of object has this mode (POSIX.1-2017, `sys/stat.h`).
fn kind_of(mode: u32) -> Kind {
    match mode & 0o170000 {
        0o010000 => Kind::Fifo,
        0o020000 => Kind::CharacterDevice,
        0o040000 => Kind::Directory,
        0o060000 => Kind::BlockDevice,
        0o120000 => Kind::Symlink,
        0o140000 => Kind::Socket,
        _ => Kind::Regular,
    }
}

/// Whether a device has this number, in either byte order.
fn is_number(device: Option<DeviceBytes>, number: Option<(u16, u32)>) -> bool {
    match (device, number) {
        (None, None) => true,
        (Some(bytes), Some(number)) => {
            bytes.major_and_minor::<LittleEndian>() == number
                || bytes.major_and_minor::<BigEndian>() == number
        }
        _ => false,
    }
}

/// A new object without bytes.
fn new_object(mode: u32, time: u32) -> Object {
    Object {
        kind: kind_of(mode),
        mode,
        uid: 0,
        gid: 0,
        size: 0,
        atime: time,
        mtime: time,
        ctime: time,
        device: None,
    }
}

/// The same object with the attributes that a line gives it.
fn with_attributes(object: Object, permissions: u32, time: u32) -> Object {
    Object {
        mode: object.mode & 0o170000 | permissions,
        uid: 5,
        gid: 6,
        atime: 1,
        mtime: 2,
        ctime: time,
        ..object
    }
}

impl Plain {
    /// The root alone.
    pub fn new(alloc: Global) -> Plain {
        Plain {
            root: new_object(0o040755, 0),
            files: Vec::new(alloc),
            names: [(b"a", None), (b"b", None), (b"d", None), (b"e", None)],
        }
    }

    fn set_name(&mut self, name: &[u8], ino: Option<u32>) {
        for (known, number) in self.names.iter_mut() {
            if *known == name {
                *number = ino;
            }
        }
    }

    /// Takes a step.
    pub fn take(&mut self, alloc: Global, change: &Change) -> Result<(), AllocError> {
        match *change {
            Change::Make(mode, count, time) => self.files.push(File {
                object: new_object(mode, time),
                number: None,
                bytes: vec![in alloc; 0x5A; count]?,
            })?,
            Change::Device(mode, major, minor, time) => self.files.push(File {
                object: new_object(mode, time),
                number: Some((major, minor)),
                bytes: Vec::new(alloc),
            })?,
            Change::Link(target, time) => {
                let mut bytes = Vec::new(alloc);
                bytes.extend_from_slice(target)?;
                self.files.push(File {
                    object: new_object(0o120777, time),
                    number: None,
                    bytes,
                })?;
            }
            Change::Name(name, ino) => self.set_name(name, Some(ino)),
            Change::Clear(name) => self.set_name(name, None),
            Change::Root(permissions, time) => {
                self.root = with_attributes(self.root, permissions, time);
            }
            Change::Put(file, ..)
            | Change::Fill(file, ..)
            | Change::Zero(file, ..)
            | Change::Cut(file, ..)
            | Change::Attributes(file, ..) => {
                if let Some(file) = self.files.get_mut(file) {
                    file.take(change)?;
                }
            }
        }
        Ok(())
    }

    /// Whether a mounted image shows these files and names, and no others. `room` has place for the
    /// bytes of each file.
    pub fn is_shown(&self, mounted: &Mounted<'_>, room: &mut [u8]) -> bool {
        self.are_files_shown(mounted, room) && self.are_names_shown(mounted)
    }

    fn are_files_shown(&self, mounted: &Mounted<'_>, room: &mut [u8]) -> bool {
        let mut shown = mounted.objects();
        let mut ino: u32 = 2;
        let mut same = shown.next() == Some((1, self.root));
        for file in &self.files {
            let count = mounted.read_at(ino, 0, room);
            same = same
                && file.is_object(ino, shown.next())
                && room.get(..count) == Some(file.readable());
            ino = ino.wrapping_add(1);
        }
        same && shown.next().is_none() && mounted.next() == u64::from(ino)
    }

    fn are_names_shown(&self, mounted: &Mounted<'_>) -> bool {
        let mut shown = mounted.names();
        let mut same = true;
        for (name, ino) in &self.names {
            if let Some(ino) = ino {
                same = same && shown.next() == Some((1, *name, *ino));
            }
        }
        same && shown.next().is_none()
    }
}
