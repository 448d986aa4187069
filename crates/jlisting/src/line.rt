//! The lines of a listing that have an action.

ghost use Rattle.std.specs.Prelude.{◌≡◌, option_map, string_bytes};

use jnode::Order;
use jsteps::{DeviceKind, DeviceNumber, Op, Text};
use std::marker::Model;

/// Where a name lies.
#[derive(Drop)]
enum Name<'a> {
    Lent(&'a str),
    Own(String),
}

/// The name of a file of the host, as it is in the listing or of its own, seen as its bytes.
#[derive(Drop)]
pub struct FileName<'a> {
    name: Name<'a>,
}

impl<'a> Model for FileName<'a> {
    ghost use Rattle.std.specs.Prelude.{List, ℕ};
    ghost use Rattle.jlisting.specs.FileName.{name_bytes};

    ghost Value = { List ℕ };

    ghost view = { λ f. name_bytes f.name };
}

impl<'a> FileName<'a> {
    /// A name that is in the listing.
    pub(crate) fn lent(name: &'a str) -> FileName<'a>
        ensures { result ≡ name.now }
    {
        FileName {
            name: Name::Lent(name),
        }
    }

    /// A name of its own.
    pub(crate) fn new(name: String) -> FileName<'a>
        ensures { result ≡ string_bytes name }
    {
        FileName {
            name: Name::Own(name),
        }
    }

    /// The name.
    pub fn as_str(&self) -> &str
        ensures { result.now ≡ self.now }
    {
        match &self.name {
            Name::Lent(name) => name,
            Name::Own(name) => name.as_str(),
        }
    }
}

/// What a line does.
#[derive(Drop)]
pub enum Action<'a> {
    Op(Op<'a>),
    /// A new device. Its number is written in the byte order of the image.
    Device {
        time: u32,
        path: Text<'a>,
        device: DeviceKind,
        mode: u32,
        uid: u16,
        gid: u16,
        major: u16,
        minor: u32,
    },
    /// A new file with the bytes of a file of the host, which are not read yet.
    File {
        time: u32,
        path: Text<'a>,
        mode: u32,
        uid: u16,
        gid: u16,
        file: FileName<'a>,
    },
    /// A file as of `File`, whatever its path leads to, but a directory.
    Put {
        time: u32,
        path: Text<'a>,
        mode: u32,
        uid: u16,
        gid: u16,
        file: FileName<'a>,
    },
    /// A write from `offset` on of the bytes of a file of the host, which are not read yet.
    Part {
        time: u32,
        path: Text<'a>,
        offset: u32,
        file: FileName<'a>,
    },
}

impl<'a> Action<'a> {
    ghost use Rattle.jlisting.specs.Listing.{file_of, op_of};

    /// The file of the host whose bytes are written, if there is one.
    pub fn file(&self) -> Option<&str>
        ensures { option_map (λ name. name.now) result ≡ file_of self.now }
    {
        match self {
            Action::Op(_) => None,
            Action::Device { .. } => None,
            Action::File { file, .. } => Some(file.as_str()),
            Action::Put { file, .. } => Some(file.as_str()),
            Action::Part { file, .. } => Some(file.as_str()),
        }
    }

    /// The operation in an image of `E`'s order, where that file has these bytes. They are lent;
    /// without a file they have no use.
    pub fn op<E: Order>(self, bytes: &'a [u8]) -> Op<'a>
        ensures { result ≡ op_of E.order self.entry bytes.entry.now }
    {
        match self {
            Action::Op(op) => op,
            Action::Device {
                time,
                path,
                device,
                mode,
                uid,
                gid,
                major,
                minor,
            } => Op::Device {
                time,
                path,
                kind: device,
                mode,
                uid,
                gid,
                number: DeviceNumber::new::<E>(major, minor),
            },
            Action::File {
                time,
                path,
                mode,
                uid,
                gid,
                ..
            } => Op::File {
                time,
                path,
                mode,
                uid,
                gid,
                bytes: Text::lent(bytes),
            },
            Action::Put {
                time,
                path,
                mode,
                uid,
                gid,
                ..
            } => Op::Put {
                time,
                path,
                mode,
                uid,
                gid,
                bytes: Text::lent(bytes),
            },
            Action::Part {
                time,
                path,
                offset,
                ..
            } => Op::Write {
                time,
                path,
                offset,
                bytes: Text::lent(bytes),
            },
        }
    }
}

/// A line with an action, and its number, counted from 1 over all lines.
#[derive(Drop)]
pub struct Line<'a> {
    pub number: usize,
    pub action: Action<'a>,
}
