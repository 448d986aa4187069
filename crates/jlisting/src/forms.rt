//! The forms of a line, each by the words after its first.

ghost use Rattle.jline.specs.Read.{IsRead};
ghost use Rattle.jlisting.specs.Listing.{attr_line, create_line, device_line, fifo_line, file_line, link_line, mkdir_line, owner_line, part_line, put_line, remove_if_line, remove_line, rename_line, replace_line, socket_line, symlink_line, time_line, truncate_line, write_line};

use crate::line::Action;
use crate::statement::{Settings, Statement};
use crate::words::{
    data_word, decimal_word, device_kind_word, escaped_file_word, file_word, major_word,
    minor_word, mode_word, owner_word, text_word,
};
use jline::WordFault;
use jsteps::{Attributes, Op};
use std::alloc::Global;

/// `time T`: the time of what follows.
pub fn read_time<'a>(settings: Settings, time: &'a [u8]) -> Result<Statement<'a>, WordFault>
    ensures { IsRead (time_line settings time.entry.now) result }
{
    let time = decimal_word(time)?;
    Ok(Statement::Settings(Settings { time, ..settings }))
}

/// `owner UID GID`: the owner of what follows.
pub fn read_owner<'a>(
    settings: Settings,
    uid: &'a [u8],
    gid: &'a [u8],
) -> Result<Statement<'a>, WordFault>
    ensures { IsRead (owner_line settings uid.entry.now gid.entry.now) result }
{
    let uid = owner_word(uid)?;
    let gid = owner_word(gid)?;
    Ok(Statement::Settings(Settings {
        uid,
        gid,
        ..settings
    }))
}

/// `mkdir MODE PATH`
pub fn read_mkdir<'a>(
    alloc: Global,
    settings: Settings,
    mode: &'a [u8],
    path: &'a [u8],
) -> Result<Statement<'a>, WordFault>
    ensures { IsRead (mkdir_line settings mode.entry.now path.entry.now) result }
{
    let mode = mode_word(mode)?;
    let path = text_word(alloc, path)?;
    Ok(Statement::Action(Action::Op(Op::Mkdir {
        time: settings.time,
        path,
        mode,
        uid: settings.uid,
        gid: settings.gid,
    })))
}

/// `create MODE PATH`
pub fn read_create<'a>(
    alloc: Global,
    settings: Settings,
    mode: &'a [u8],
    path: &'a [u8],
) -> Result<Statement<'a>, WordFault>
    ensures { IsRead (create_line settings mode.entry.now path.entry.now) result }
{
    let mode = mode_word(mode)?;
    let path = text_word(alloc, path)?;
    Ok(Statement::Action(Action::Op(Op::Create {
        time: settings.time,
        path,
        mode,
        uid: settings.uid,
        gid: settings.gid,
    })))
}

/// `file MODE PATH FILE`
pub fn read_file<'a>(
    alloc: Global,
    settings: Settings,
    mode: &'a [u8],
    path: &'a [u8],
    file: &'a [u8],
) -> Result<Statement<'a>, WordFault>
    ensures { IsRead (file_line settings mode.entry.now path.entry.now file.entry.now) result }
{
    let mode = mode_word(mode)?;
    let path = text_word(alloc, path)?;
    let file = escaped_file_word(alloc, file)?;
    Ok(Statement::Action(Action::File {
        time: settings.time,
        path,
        mode,
        uid: settings.uid,
        gid: settings.gid,
        file,
    }))
}

/// `put MODE PATH FILE`
pub fn read_put<'a>(
    alloc: Global,
    settings: Settings,
    mode: &'a [u8],
    path: &'a [u8],
    file: &'a [u8],
) -> Result<Statement<'a>, WordFault>
    ensures { IsRead (put_line settings mode.entry.now path.entry.now file.entry.now) result }
{
    let mode = mode_word(mode)?;
    let path = text_word(alloc, path)?;
    let file = escaped_file_word(alloc, file)?;
    Ok(Statement::Action(Action::Put {
        time: settings.time,
        path,
        mode,
        uid: settings.uid,
        gid: settings.gid,
        file,
    }))
}

/// `device KIND MODE MAJOR MINOR PATH`
pub fn read_device<'a>(
    alloc: Global,
    settings: Settings,
    device: &'a [u8],
    mode: &'a [u8],
    major: &'a [u8],
    minor: &'a [u8],
    path: &'a [u8],
) -> Result<Statement<'a>, WordFault>
    ensures { IsRead (device_line settings device.entry.now mode.entry.now major.entry.now
        minor.entry.now path.entry.now) result }
{
    let device = device_kind_word(device)?;
    let mode = mode_word(mode)?;
    let major = major_word(major)?;
    let minor = minor_word(minor)?;
    let path = text_word(alloc, path)?;
    Ok(Statement::Action(Action::Device {
        time: settings.time,
        path,
        device,
        mode,
        uid: settings.uid,
        gid: settings.gid,
        major,
        minor,
    }))
}

/// `fifo MODE PATH`
pub fn read_fifo<'a>(
    alloc: Global,
    settings: Settings,
    mode: &'a [u8],
    path: &'a [u8],
) -> Result<Statement<'a>, WordFault>
    ensures { IsRead (fifo_line settings mode.entry.now path.entry.now) result }
{
    let mode = mode_word(mode)?;
    let path = text_word(alloc, path)?;
    Ok(Statement::Action(Action::Op(Op::Fifo {
        time: settings.time,
        path,
        mode,
        uid: settings.uid,
        gid: settings.gid,
    })))
}

/// `socket MODE PATH`
pub fn read_socket<'a>(
    alloc: Global,
    settings: Settings,
    mode: &'a [u8],
    path: &'a [u8],
) -> Result<Statement<'a>, WordFault>
    ensures { IsRead (socket_line settings mode.entry.now path.entry.now) result }
{
    let mode = mode_word(mode)?;
    let path = text_word(alloc, path)?;
    Ok(Statement::Action(Action::Op(Op::Socket {
        time: settings.time,
        path,
        mode,
        uid: settings.uid,
        gid: settings.gid,
    })))
}

/// `symlink PATH TARGET`
pub fn read_symlink<'a>(
    alloc: Global,
    settings: Settings,
    path: &'a [u8],
    target: &'a [u8],
) -> Result<Statement<'a>, WordFault>
    ensures { IsRead (symlink_line settings path.entry.now target.entry.now) result }
{
    let path = text_word(alloc, path)?;
    let target = text_word(alloc, target)?;
    Ok(Statement::Action(Action::Op(Op::Symlink {
        time: settings.time,
        path,
        target,
        uid: settings.uid,
        gid: settings.gid,
    })))
}

/// `write PATH OFFSET HEX`
pub fn read_write<'a>(
    alloc: Global,
    settings: Settings,
    path: &'a [u8],
    offset: &'a [u8],
    bytes: &'a [u8],
) -> Result<Statement<'a>, WordFault>
    ensures { IsRead (write_line settings path.entry.now offset.entry.now bytes.entry.now) result }
{
    let path = text_word(alloc, path)?;
    let offset = decimal_word(offset)?;
    let bytes = data_word(alloc, bytes)?;
    Ok(Statement::Action(Action::Op(Op::Write {
        time: settings.time,
        path,
        offset,
        bytes,
    })))
}

/// `part PATH OFFSET FILE`
pub fn read_part<'a>(
    alloc: Global,
    settings: Settings,
    path: &'a [u8],
    offset: &'a [u8],
    file: &'a [u8],
) -> Result<Statement<'a>, WordFault>
    ensures { IsRead (part_line settings path.entry.now offset.entry.now file.entry.now) result }
{
    let path = text_word(alloc, path)?;
    let offset = decimal_word(offset)?;
    let file = file_word(file)?;
    Ok(Statement::Action(Action::Part {
        time: settings.time,
        path,
        offset,
        file,
    }))
}

/// `truncate PATH SIZE`
pub fn read_truncate<'a>(
    alloc: Global,
    settings: Settings,
    path: &'a [u8],
    size: &'a [u8],
) -> Result<Statement<'a>, WordFault>
    ensures { IsRead (truncate_line settings path.entry.now size.entry.now) result }
{
    let path = text_word(alloc, path)?;
    let size = decimal_word(size)?;
    Ok(Statement::Action(Action::Op(Op::Truncate {
        time: settings.time,
        path,
        size,
    })))
}

/// `link OLD NEW`
pub fn read_link<'a>(
    alloc: Global,
    settings: Settings,
    old: &'a [u8],
    new: &'a [u8],
) -> Result<Statement<'a>, WordFault>
    ensures { IsRead (link_line settings old.entry.now new.entry.now) result }
{
    let old = text_word(alloc, old)?;
    let new = text_word(alloc, new)?;
    Ok(Statement::Action(Action::Op(Op::Link {
        time: settings.time,
        old,
        new,
    })))
}

/// `rename OLD NEW`
pub fn read_rename<'a>(
    alloc: Global,
    settings: Settings,
    old: &'a [u8],
    new: &'a [u8],
) -> Result<Statement<'a>, WordFault>
    ensures { IsRead (rename_line settings old.entry.now new.entry.now) result }
{
    let old = text_word(alloc, old)?;
    let new = text_word(alloc, new)?;
    Ok(Statement::Action(Action::Op(Op::Rename {
        time: settings.time,
        old,
        new,
    })))
}

/// `replace OLD NEW`
pub fn read_replace<'a>(
    alloc: Global,
    settings: Settings,
    old: &'a [u8],
    new: &'a [u8],
) -> Result<Statement<'a>, WordFault>
    ensures { IsRead (replace_line settings old.entry.now new.entry.now) result }
{
    let old = text_word(alloc, old)?;
    let new = text_word(alloc, new)?;
    Ok(Statement::Action(Action::Op(Op::Replace {
        time: settings.time,
        old,
        new,
    })))
}

/// `remove PATH`
pub fn read_remove<'a>(
    alloc: Global,
    settings: Settings,
    path: &'a [u8],
) -> Result<Statement<'a>, WordFault>
    ensures { IsRead (remove_line settings path.entry.now) result }
{
    let path = text_word(alloc, path)?;
    Ok(Statement::Action(Action::Op(Op::Remove {
        time: settings.time,
        path,
    })))
}

/// `remove-if PATH`
pub fn read_remove_if<'a>(
    alloc: Global,
    settings: Settings,
    path: &'a [u8],
) -> Result<Statement<'a>, WordFault>
    ensures { IsRead (remove_if_line settings path.entry.now) result }
{
    let path = text_word(alloc, path)?;
    Ok(Statement::Action(Action::Op(Op::RemoveIf {
        time: settings.time,
        path,
    })))
}

/// The words of an `attr` line after its first.
#[derive(Clone, Copy, Drop)]
pub struct AttrWords<'a> {
    pub mode: &'a [u8],
    pub uid: &'a [u8],
    pub gid: &'a [u8],
    pub atime: &'a [u8],
    pub mtime: &'a [u8],
    pub path: &'a [u8],
}

/// `attr MODE UID GID ATIME MTIME PATH`
pub fn read_attr<'a>(
    alloc: Global,
    settings: Settings,
    words: AttrWords<'a>,
) -> Result<Statement<'a>, WordFault>
    ensures { IsRead (attr_line settings words.entry.mode.now words.entry.uid.now
        words.entry.gid.now words.entry.atime.now words.entry.mtime.now words.entry.path.now)
        result }
{
    let attributes = Attributes {
        mode: mode_word(words.mode)?,
        uid: owner_word(words.uid)?,
        gid: owner_word(words.gid)?,
        atime: decimal_word(words.atime)?,
        mtime: decimal_word(words.mtime)?,
    };
    let path = text_word(alloc, words.path)?;
    Ok(Statement::Action(Action::Op(Op::SetAttributes {
        time: settings.time,
        path,
        attributes,
    })))
}
