//! Where in the tree the object of a node is.

ghost use Rattle.std.specs.Prelude.{◌≡◌, ◌++◌, ◌≤◌, OnOk, length};
ghost use Rattle.flashbase.specs.Sinks.{PutsTo};
ghost use Rattle.jscan.specs.Image.{greatest_image};
ghost use Rattle.jmap.specs.NodeTexts.{markup_byte, markup_name, titled_name};
ghost use Rattle.jmap.specs.Places.{name_place, object_place, path_in, path_or_slash, place_text, slash_name};

use crate::texts::{inode_number, push_byte, push_name};
use flashbase::{DeviceFault, Part, Sink};
use jline::{LineBuffer, put_text};
use jnode::{Dirent, Order, Seen};
use jscan::{Extent, ExtentKind};
use std::alloc::{AllocError, Global};
use std::collections::BTreeMap;

/// The texts of paths by the numbers of their objects, as [`push_path_name`] makes them. That of
/// the root is empty.
pub type Paths = BTreeMap<u32, Vec<u8>>;

/// Adds a byte of a name to the text of a path.
fn push_path_byte(text: &mut Vec<u8>, byte: u8) -> Result<(), AllocError>
    ensures { OnOk result (text.new.items ≡ text.old.items ++ markup_byte byte) }
{
    let mut line = LineBuffer::new();
    push_byte(&mut line, byte);
    text.extend_from_slice(line.as_slice())
}

/// Adds the bytes of a name to it.
fn push_path_bytes(text: &mut Vec<u8>, name: &[u8]) -> Result<(), AllocError>
    ensures { OnOk result (text.new.items ≡ text.old.items ++ markup_name name.now) }
{
    for byte in name {
        push_path_byte(text, *byte)?;
    }
    Ok(())
}

/// Adds a slash and a name to the text of a path, as the titles of a picture show it: bytes that
/// mean something in XML, or that are no text, as escapes.
///
/// # Errors
/// Out of memory.
pub fn push_path_name(text: &mut Vec<u8>, name: &[u8]) -> Result<(), AllocError>
    ensures { OnOk result (text.new.items ≡ text.old.items ++ slash_name name.now) }
{
    text.push(b'/')?;
    push_path_bytes(text, name)
}

/// Puts two texts.
pub(crate) fn put_two<T: Sink>(start: &[u8], end: &[u8], sink: &mut T) -> Result<(), DeviceFault>
    ensures { PutsTo T.Sink sink.old sink.new (start.now ++ end.now) result }
{
    put_text(sink, start)?;
    put_text(sink, end)
}

/// The text of a path, or that of the root.
fn path_or_slash(path: &[u8]) -> &[u8]
    ensures { result.now ≡ path_or_slash path.now }
{
    if path.is_empty() { b"/" } else { path }
}

/// Puts where an object is, if that is known.
#[tactic(auto, unfolding(crate::specs::Places::object_place))]
fn put_object_place<T: Sink>(paths: &Paths, ino: u32, sink: &mut T) -> Result<(), DeviceFault>
    ensures { PutsTo T.Sink sink.old sink.new (object_place (path_in paths.now ino)) result }
{
    match paths.get(&ino) {
        Some(path) => put_two(b", ", path_or_slash(path.as_slice()), sink),
        None => put_text(sink, b""),
    }
}

/// A slash and a name.
fn slash_name(name: &Part<'_>) -> LineBuffer
    requires { length name.now ≤ 255 }
    ensures { result ≡ slash_name name.now }
{
    let mut line = LineBuffer::new();
    line.push_text(b"/");
    push_name(&mut line, name);
    line
}

/// Puts where a name is, if the path of its directory is known.
#[tactic(auto, unfolding(crate::specs::Places::name_place))]
fn put_name_place<T: Sink>(
    paths: &Paths,
    entry: &Dirent<'_>,
    sink: &mut T,
) -> Result<(), DeviceFault>
    requires { length entry.now.name ≤ 255 }
    ensures { PutsTo T.Sink sink.old sink.new
        (name_place (path_in paths.now entry.now.pino) entry.now.name) result }
{
    match paths.get(&entry.pino) {
        Some(path) => {
            put_two(b", ", path.as_slice(), sink)?;
            put_text(sink, slash_name(&entry.name).as_slice())
        }
        None => put_text(sink, b""),
    }
}

/// Puts where the object of the node is that an extent is, if it is one and that is known.
pub(crate) fn put_place<E: Order, T: Sink>(
    image: &[u8],
    paths: &Paths,
    extent: &Extent<'_>,
    sink: &mut T,
) -> Result<(), DeviceFault>
    requires image { length image.now ≤ greatest_image }
    requires name { length (titled_name extent.now.kind) ≤ 255 }
    ensures { PutsTo T.Sink sink.old sink.new
        (place_text E.order image.now paths.now extent.now.addr extent.now.kind) result }
{
    match &extent.kind {
        ExtentKind::Tiled(Seen::Entry(entry)) => put_name_place(paths, entry, sink),
        ExtentKind::Tiled(Seen::Inode(node)) => put_object_place(paths, node.ino, sink),
        ExtentKind::Tiled(Seen::Compressed { .. }) => {
            put_object_place(paths, inode_number::<E>(image, extent.addr), sink)
        }
        _ => put_text(sink, b""),
    }
}
