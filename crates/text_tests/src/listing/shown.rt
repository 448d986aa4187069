//! Listings as they are read, as lines of text.

use jlisting::{Action, Line, ListingFault, listing};
use jsteps::{Attributes, DeviceKind, Op, Text};
use std::alloc::{AllocError, Global};
use std::fmt::Write;

/// Bytes after a space, each that is no plain letter as `\x` and two digits.
fn show_bytes(out: &mut String, text: &Text<'_>) -> Result<(), AllocError> {
    show_slice(out, text.as_slice())
}

fn show_byte(out: &mut String, byte: u8) -> Result<(), AllocError> {
    if byte.is_ascii_graphic() && byte != b'\\' {
        out.push(char::from(byte))
    } else {
        write!(out, "\\x{byte:02x}")
    }
}

fn show_slice(out: &mut String, bytes: &[u8]) -> Result<(), AllocError> {
    out.push_str(" ")?;
    for byte in bytes {
        show_byte(out, *byte)?;
    }
    Ok(())
}

/// A new object: its time, the form, mode, owners and path.
fn show_object(
    out: &mut String,
    verb: &str,
    object: (u32, u32, u16, u16),
    path: &Text<'_>,
) -> Result<(), AllocError> {
    let (time, mode, uid, gid) = object;
    write!(out, "{time} {verb} {mode:o} {uid} {gid}")?;
    show_bytes(out, path)
}

/// Two paths.
fn show_names(
    out: &mut String,
    verb: &str,
    time: u32,
    old: &Text<'_>,
    new: &Text<'_>,
) -> Result<(), AllocError> {
    write!(out, "{time} {verb}")?;
    show_bytes(out, old)?;
    show_bytes(out, new)
}

/// Other attributes: mode, owners and times.
fn show_attributes(
    out: &mut String,
    time: u32,
    attributes: &Attributes,
    path: &Text<'_>,
) -> Result<(), AllocError> {
    let Attributes {
        mode,
        uid,
        gid,
        atime,
        mtime,
    } = attributes;
    write!(out, "{time} attr {mode:o} {uid} {gid} {atime} {mtime}")?;
    show_bytes(out, path)
}

fn device_verb(kind: DeviceKind) -> &'static str {
    match kind {
        DeviceKind::Character => "character",
        DeviceKind::Block => "block",
    }
}

/// A new device, with the bytes of its number.
fn show_device(out: &mut String, op: &Op<'_>) -> Result<(), AllocError> {
    let Op::Device {
        time,
        path,
        kind,
        mode,
        uid,
        gid,
        number,
    } = op
    else {
        return Ok(());
    };
    show_object(out, device_verb(*kind), (*time, *mode, *uid, *gid), path)?;
    show_slice(out, number.as_slice())
}

/// A new device, with its two numbers.
fn show_listed_device(out: &mut String, action: &Action<'_>) -> Result<(), AllocError> {
    let Action::Device {
        time,
        path,
        device,
        mode,
        uid,
        gid,
        major,
        minor,
    } = action
    else {
        return Ok(());
    };
    show_object(out, device_verb(*device), (*time, *mode, *uid, *gid), path)?;
    write!(out, " {major} {minor}")
}

/// A new object, or what `show_change` shows.
pub fn show_op(out: &mut String, op: &Op<'_>) -> Result<(), AllocError> {
    match op {
        Op::Mkdir {
            time,
            path,
            mode,
            uid,
            gid,
        } => show_object(out, "mkdir", (*time, *mode, *uid, *gid), path),
        Op::Create {
            time,
            path,
            mode,
            uid,
            gid,
        } => show_object(out, "create", (*time, *mode, *uid, *gid), path),
        Op::File {
            time,
            path,
            mode,
            uid,
            gid,
            bytes,
        } => {
            show_object(out, "file", (*time, *mode, *uid, *gid), path)?;
            show_bytes(out, bytes)
        }
        Op::Put {
            time,
            path,
            mode,
            uid,
            gid,
            bytes,
        } => {
            show_object(out, "put", (*time, *mode, *uid, *gid), path)?;
            show_bytes(out, bytes)
        }
        Op::Device { .. } => show_device(out, op),
        Op::Fifo {
            time,
            path,
            mode,
            uid,
            gid,
        } => show_object(out, "fifo", (*time, *mode, *uid, *gid), path),
        Op::Socket {
            time,
            path,
            mode,
            uid,
            gid,
        } => show_object(out, "socket", (*time, *mode, *uid, *gid), path),
        Op::Symlink {
            time,
            path,
            target,
            uid,
            gid,
        } => {
            write!(out, "{time} symlink {uid} {gid}")?;
            show_bytes(out, path)?;
            show_bytes(out, target)
        }
        change => show_change(out, change),
    }
}

/// A change of what is there, with its numbers in front of its bytes.
fn show_change(out: &mut String, op: &Op<'_>) -> Result<(), AllocError> {
    match op {
        Op::Write {
            time,
            path,
            offset,
            bytes,
        } => {
            write!(out, "{time} write {offset}")?;
            show_bytes(out, path)?;
            show_bytes(out, bytes)
        }
        Op::Truncate { time, path, size } => {
            write!(out, "{time} truncate {size}")?;
            show_bytes(out, path)
        }
        Op::Link { time, old, new } => show_names(out, "link", *time, old, new),
        Op::Rename { time, old, new } => show_names(out, "rename", *time, old, new),
        Op::Replace { time, old, new } => show_names(out, "replace", *time, old, new),
        Op::Remove { time, path } => {
            write!(out, "{time} remove")?;
            show_bytes(out, path)
        }
        Op::RemoveIf { time, path } => {
            write!(out, "{time} remove-if")?;
            show_bytes(out, path)
        }
        Op::SetAttributes {
            time,
            path,
            attributes,
        } => show_attributes(out, *time, attributes, path),
        _ => Ok(()),
    }
}

/// A line: its number, the time, the form and its values.
pub fn show_line(out: &mut String, line: &Line<'_>) -> Result<(), AllocError> {
    let number = line.number;
    write!(out, "{number}: ")?;
    match &line.action {
        Action::Op(op) => show_op(out, op)?,
        Action::Device { .. } => show_listed_device(out, &line.action)?,
        Action::File {
            time,
            path,
            mode,
            uid,
            gid,
            file,
        } => {
            let name = file.as_str();
            show_object(out, "file", (*time, *mode, *uid, *gid), path)?;
            write!(out, " {name}")?;
        }
        Action::Put {
            time,
            path,
            mode,
            uid,
            gid,
            file,
        } => {
            let name = file.as_str();
            show_object(out, "put", (*time, *mode, *uid, *gid), path)?;
            write!(out, " {name}")?;
        }
        Action::Part {
            time,
            path,
            offset,
            file,
        } => {
            let name = file.as_str();
            write!(out, "{time} part {offset}")?;
            show_bytes(out, path)?;
            write!(out, " {name}")?;
        }
    }
    out.push_str("\n")
}

/// What is read of a listing.
pub fn shown(alloc: Global, text: &[u8]) -> Result<String, ListingFault> {
    let lines = listing(alloc, text)?;
    let mut out = String::new(alloc);
    for line in &lines {
        show_line(&mut out, line)?;
    }
    Ok(out)
}

/// Whether a listing is read as these lines.
pub fn is_shown(alloc: Global, text: &[u8], wanted: &str) -> bool {
    match shown(alloc, text) {
        Ok(out) => out.as_str() == wanted,
        Err(_) => false,
    }
}
