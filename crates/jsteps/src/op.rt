//! What may be done to a file system.

ghost use Rattle.jsteps.specs.Laws.{GivenFit, OpFits};

use crate::device::{DeviceKind, DeviceNumber};
use crate::text::Text;

/// The attributes that an object gets: the permission bits of its mode, at most 0o7777, its owners,
/// and the times in seconds of its last access and of the last change of its bytes.
#[derive(Clone, Copy)]
pub struct Attributes {
    pub mode: u32,
    pub uid: u16,
    pub gid: u16,
    pub atime: u32,
    pub mtime: u32,
}

impl Attributes {
    /// The owners and the times have the widths of their types.
    fn known(&self)
        ensures { GivenFit self.now }
    {
        let Attributes {
            uid,
            gid,
            atime,
            mtime,
            ..
        } = self;
        let _known = (*uid, *gid, *atime, *mtime);
    }
}

/// An operation, with its time in seconds. Paths are bytes that begin with a slash and name what
/// they lead to from the root on; `mode` has the permission bits alone, at most 0o7777; `uid` and
/// `gid` own the new object.
#[derive(Drop)]
pub enum Op<'a> {
    /// A new directory.
    Mkdir {
        time: u32,
        path: Text<'a>,
        mode: u32,
        uid: u16,
        gid: u16,
    },
    /// A new regular file without bytes.
    Create {
        time: u32,
        path: Text<'a>,
        mode: u32,
        uid: u16,
        gid: u16,
    },
    /// A new regular file with bytes, at most 2,147,483,647 of them. It is named last, so the name
    /// stands for all of them.
    File {
        time: u32,
        path: Text<'a>,
        mode: u32,
        uid: u16,
        gid: u16,
        bytes: Text<'a>,
    },
    /// A file as of `File`, whatever its name stood for: the name stands for that until it stands
    /// for the new file with all its bytes. It does not take the place of a directory.
    Put {
        time: u32,
        path: Text<'a>,
        mode: u32,
        uid: u16,
        gid: u16,
        bytes: Text<'a>,
    },
    /// A new character or block device of a number.
    Device {
        time: u32,
        path: Text<'a>,
        kind: DeviceKind,
        mode: u32,
        uid: u16,
        gid: u16,
        number: DeviceNumber,
    },
    /// A new FIFO.
    Fifo {
        time: u32,
        path: Text<'a>,
        mode: u32,
        uid: u16,
        gid: u16,
    },
    /// A new socket.
    Socket {
        time: u32,
        path: Text<'a>,
        mode: u32,
        uid: u16,
        gid: u16,
    },
    /// A new symlink to a target of 1 to 4,095 bytes, none of them zero.
    Symlink {
        time: u32,
        path: Text<'a>,
        target: Text<'a>,
        uid: u16,
        gid: u16,
    },
    /// Bytes of a regular file, from `offset` on; zeros fill what lies between its end and there.
    /// No bytes change nothing.
    Write {
        time: u32,
        path: Text<'a>,
        offset: u32,
        bytes: Text<'a>,
    },
    /// A regular file gets this size: cut, or continued by zeros.
    Truncate {
        time: u32,
        path: Text<'a>,
        size: u32,
    },
    /// A further name for what `old` names, which is no directory.
    Link {
        time: u32,
        old: Text<'a>,
        new: Text<'a>,
    },
    /// A name is taken away, that of a directory only where it has no names. The object stays,
    /// whatever else names it.
    Remove {
        time: u32,
        path: Text<'a>,
    },
    /// As `Remove` where the name is there. Where it is not, nothing changes.
    RemoveIf {
        time: u32,
        path: Text<'a>,
    },
    /// The new name, then without the old one. It never replaces what is there.
    Rename {
        time: u32,
        old: Text<'a>,
        new: Text<'a>,
    },
    /// The new name stands for what `old` names, which is no directory, whatever it stood for; then
    /// the old name goes. It does not replace a directory. Where both paths lead to one name,
    /// nothing changes.
    Replace {
        time: u32,
        old: Text<'a>,
        new: Text<'a>,
    },
    /// Other attributes of a directory, the root too, a regular file, a FIFO or a socket. Its bytes
    /// stay, and the operation's time is that of the last change of its attributes.
    SetAttributes {
        time: u32,
        path: Text<'a>,
        attributes: Attributes,
    },
}

impl Op<'_> {
    /// The time and the owners have the widths of their types, and a device's number at most four
    /// bytes, which a caller's contract may want to know.
    pub fn known(&self)
        ensures { OpFits self.now }
    {
        match self {
            Op::Mkdir { time, uid, gid, .. }
            | Op::Create { time, uid, gid, .. }
            | Op::File { time, uid, gid, .. }
            | Op::Put { time, uid, gid, .. }
            | Op::Fifo { time, uid, gid, .. }
            | Op::Socket { time, uid, gid, .. }
            | Op::Symlink { time, uid, gid, .. } => {
                let _known = (*time, *uid, *gid);
            }
            Op::Device {
                time,
                uid,
                gid,
                number,
                ..
            } => {
                let _known = (*time, *uid, *gid, number.len());
            }
            Op::Write { time, .. }
            | Op::Truncate { time, .. }
            | Op::Link { time, .. }
            | Op::Remove { time, .. }
            | Op::RemoveIf { time, .. }
            | Op::Rename { time, .. }
            | Op::Replace { time, .. } => {
                let _known = *time;
            }
            Op::SetAttributes {
                time,
                attributes,
                ..
            } => {
                attributes.known();
                let _known = *time;
            }
        }
    }
}
