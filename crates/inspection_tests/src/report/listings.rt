//! The lines of objects. Worked trees are in tests/hostile.py.

use crate::checks::equal;
use crate::report::images::{LARGE, image_of};
use byteorder::LittleEndian;
use flashbase::FromWriter;
use jline::LineBuffer;
use jmount::{Kind, mount};
use jreport::{push_number, put_subtree, put_tail, tree_lines, write_mode};
use std::alloc::Global;
use std::test::Fail;
use test_support::{DIRECTORY, Node, SYMLINK};

/// Directory 2 in the root, with itself in it.
const LOOP: &[Node<'static>] = &[
    Node::Inode(2, DIRECTORY, b""),
    Node::Entry(1, 2, b"a"),
    Node::Entry(2, 2, b"\x7f"),
];

/// What is listed of the loop from a path on; of the whole where there is none.
fn lines_of(alloc: Global, path: Option<&[u8]>) -> Option<Vec<u8>> {
    let image = image_of(alloc, LOOP).ok()?;
    let mounted = mount::<LittleEndian>(alloc, &image, LARGE).ok()?;
    let mut sink = FromWriter::new(Vec::new(alloc));
    let put = match path {
        Some(path) => put_subtree(alloc, &mounted, path, &mut sink),
        None => tree_lines(alloc, &mounted, &mut sink),
    };
    match put {
        Ok(()) => Some(sink.into_writer()),
        Err(_) => None,
    }
}

const FROM_A: &str = "d 0755 0 0 0 0 2 /a\nd 0755 0 0 0 0 2 /a/\\x7f (again)\n";

const WHOLE: &str = "d 0755 0 0 0 0 1 /\n\
    d 0755 0 0 0 0 2 /a\n\
    d 0755 0 0 0 0 2 /a/\\x7f (again)\n";

#[test]
fn lines_of_objects(rt: HostRuntime) -> Result<(), Fail> {
    let whole = lines_of(rt.alloc(), None).ok_or("no lines")?;
    equal(&rt, whole.as_slice(), WHOLE.as_bytes());
    let part = lines_of(rt.alloc(), Some(b"/a")).ok_or("no lines")?;
    equal(&rt, part.as_slice(), FROM_A.as_bytes());
    Ok(())
}

/// What follows the path of object 2, which has this mode and these bytes.
fn tail(alloc: Global, mode: u32, bytes: &[u8], again: bool) -> Option<Vec<u8>> {
    let image = image_of(alloc, &[Node::Inode(2, mode, bytes)]).ok()?;
    let mounted = mount::<LittleEndian>(alloc, &image, LARGE).ok()?;
    let object = mounted.object(2)?;
    let mut sink = FromWriter::new(Vec::new(alloc));
    match put_tail(&mounted, 2, &object, again, &mut sink) {
        Ok(()) => Some(sink.into_writer()),
        Err(_) => None,
    }
}

fn tails() -> &'static [(u32, &'static [u8], bool, &'static str)] {
    &[
        (DIRECTORY, b"", false, ""),
        (DIRECTORY, b"", true, " (again)"),
        (SYMLINK, b"a\x7f", false, " -> a\\x7f"),
        (SYMLINK, b"a\x7f", true, " -> a\\x7f"),
    ]
}

#[test]
fn what_follows_a_path(rt: HostRuntime) -> Result<(), Fail> {
    for &(mode, bytes, again, text) in tails() {
        let put = tail(rt.alloc(), mode, bytes, again).ok_or("nothing put")?;
        equal(&rt, put.as_slice(), text.as_bytes());
    }
    Ok(())
}

#[test]
fn what_a_line_begins_with(rt: HostRuntime) {
    let mut line = LineBuffer::new();
    write_mode(&mut line, Kind::Fifo, 0o012640);
    push_number(&mut line, u32::MAX);
    equal(&rt, line.as_slice(), b"p 2640 4294967295");
}
