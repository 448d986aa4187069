//! Operations as lines of text.

use byteorder::LittleEndian;
use jsteps::{Attributes, DeviceKind, DeviceNumber, Op, Text};
use std::alloc::{AllocError, Global};

/// What is written.
const BYTES: [u8; 16_384] = [0x5A; 16_384];

/// Bytes as those of erased flash.
const ERASED: [u8; 16] = [0xFF; 16];

/// When an operation is asked for, and the owners of what it makes.
#[derive(Clone, Copy)]
pub struct By {
    pub time: u32,
    pub uid: u16,
    pub gid: u16,
}

/// At time 0, for owners 0.
pub const BY: By = By {
    time: 0,
    uid: 0,
    gid: 0,
};

/// A file is made, written, cut, and written behind its end: its nodes go to
/// `test_support::CUT_PLACES`.
pub const CUT_LINES: [&str; 4] = [
    "create /a 644",
    "write /a 0 10",
    "truncate /a 4",
    "write /a 8 1",
];

/// The first words of a line, and the rest of it.
fn words(line: &str) -> (&str, &str, &str, &str) {
    let (verb, rest) = line.split_once(' ').unwrap_or((line, ""));
    let (path, rest) = rest.split_once(' ').unwrap_or((rest, ""));
    let (second, third) = rest.split_once(' ').unwrap_or((rest, ""));
    (verb, path, second, third)
}

/// The operation of a line. A write has an offset and a count of bytes, which are 0x5A, and 0xFF
/// under the verb `erase`, or under `text` the bytes themselves; a file has a mode and such a
/// count, and `put` is a file in the place of another. A device has the verb of its kind, a mode, and its numbers with a colon between, in
/// little order. Attributes have owners 5 and 6 and the times 1 and 2.
pub fn op_of<'a>(line: &'a str, by: By) -> Option<Op<'a>> {
    let (verb, path, second, third) = words(line);
    match verb {
        "mkdir" | "create" | "fifo" | "socket" | "symlink" => Some(new_object(
            verb, path, second, by,
        )),
        "file" => Some(new_file(path, second, third, by)),
        "put" => Some(put_file(path, second, third, by)),
        "char" => Some(new_device(DeviceKind::Character, path, second, third, by)),
        "block" => Some(new_device(DeviceKind::Block, path, second, third, by)),
        "write" | "erase" | "text" | "truncate" => Some(other_bytes(
            verb, path, second, third, by.time,
        )),
        "attr" => Some(other_attributes(path, second, by.time)),
        _ => other_name(verb, path, second, by.time),
    }
}

/// The operations of lines, and of those before the first that has none.
pub fn ops_of<'a>(alloc: Global, lines: &[&'a str], by: By) -> Result<Vec<Op<'a>>, AllocError> {
    let mut ops = Vec::new(alloc);
    for line in lines {
        let Some(op) = op_of(line, by) else {
            return Ok(ops);
        };
        ops.push(op)?;
    }
    Ok(ops)
}

fn new_object<'a>(verb: &str, path: &'a str, second: &'a str, by: By) -> Op<'a> {
    let By { time, uid, gid } = by;
    let path = Text::lent(path.as_bytes());
    let mode = u32::from_str_radix(second, 8).unwrap_or(0);
    match verb {
        "mkdir" => Op::Mkdir {
            time,
            path,
            mode,
            uid,
            gid,
        },
        "create" => Op::Create {
            time,
            path,
            mode,
            uid,
            gid,
        },
        "fifo" => Op::Fifo {
            time,
            path,
            mode,
            uid,
            gid,
        },
        "socket" => Op::Socket {
            time,
            path,
            mode,
            uid,
            gid,
        },
        _ => Op::Symlink {
            time,
            path,
            target: Text::lent(second.as_bytes()),
            uid,
            gid,
        },
    }
}

/// As many bytes as a word says.
fn bytes_of(count: &str) -> &'static [u8] {
    &BYTES[..count.parse::<usize>().unwrap_or(0).min(BYTES.len())]
}

fn new_file<'a>(path: &'a str, second: &str, third: &str, by: By) -> Op<'a> {
    let By { time, uid, gid } = by;
    Op::File {
        time,
        path: Text::lent(path.as_bytes()),
        mode: u32::from_str_radix(second, 8).unwrap_or(0),
        uid,
        gid,
        bytes: Text::lent(bytes_of(third)),
    }
}

fn put_file<'a>(path: &'a str, second: &str, third: &str, by: By) -> Op<'a> {
    let By { time, uid, gid } = by;
    Op::Put {
        time,
        path: Text::lent(path.as_bytes()),
        mode: u32::from_str_radix(second, 8).unwrap_or(0),
        uid,
        gid,
        bytes: Text::lent(bytes_of(third)),
    }
}

fn new_device<'a>(kind: DeviceKind, path: &'a str, mode: &str, numbers: &str, by: By) -> Op<'a> {
    let By { time, uid, gid } = by;
    let (major, minor) = numbers.split_once(':').unwrap_or((numbers, ""));
    Op::Device {
        time,
        path: Text::lent(path.as_bytes()),
        kind,
        mode: u32::from_str_radix(mode, 8).unwrap_or(0),
        uid,
        gid,
        number: DeviceNumber::new::<LittleEndian>(
            major.parse::<u16>().unwrap_or(0),
            minor.parse::<u32>().unwrap_or(0),
        ),
    }
}

fn other_bytes<'a>(verb: &str, path: &'a str, second: &str, third: &'a str, time: u32) -> Op<'a> {
    let path = Text::lent(path.as_bytes());
    let number = second.parse::<u32>().unwrap_or(0);
    let bytes = bytes_of(third);
    let bytes = match verb {
        "write" => bytes,
        "text" => third.as_bytes(),
        "erase" => &ERASED[..bytes.len().min(ERASED.len())],
        _ => {
            return Op::Truncate {
                time,
                path,
                size: number,
            };
        }
    };
    Op::Write {
        time,
        path,
        offset: number,
        bytes: Text::lent(bytes),
    }
}

fn other_attributes<'a>(path: &'a str, second: &str, time: u32) -> Op<'a> {
    Op::SetAttributes {
        time,
        path: Text::lent(path.as_bytes()),
        attributes: Attributes {
            mode: u32::from_str_radix(second, 8).unwrap_or(0),
            uid: 5,
            gid: 6,
            atime: 1,
            mtime: 2,
        },
    }
}

fn other_name<'a>(verb: &str, path: &'a str, second: &'a str, time: u32) -> Option<Op<'a>> {
    let old = Text::lent(path.as_bytes());
    let new = Text::lent(second.as_bytes());
    Some(match verb {
        "link" => Op::Link { time, old, new },
        "rename" => Op::Rename { time, old, new },
        "replace" => Op::Replace { time, old, new },
        "remove" => Op::Remove { time, path: old },
        "remove-if" => Op::RemoveIf { time, path: old },
        _ => return None,
    })
}
