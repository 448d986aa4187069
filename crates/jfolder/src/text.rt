//! The listing of a tree.

ghost use Rattle.std.specs.Prelude.{◌≡◌};
ghost use Rattle.std.specs.String.{string_bytes};
ghost use Rattle.flashbase.specs.Sinks.{PutsTo};
ghost use Rattle.jfolder.specs.Pieces.{device_text, file_text, moded_line, own_owner_text, paths_line};
ghost use Rattle.jfolder.specs.Text.{attr_words, device_letter, is_link, item_words, lines_text, listing_text, object_words, owner_words, root_words, setting_words, settings_with, time_words};

use crate::settings::Settings;
use crate::tree::{Attributes, Item, What};
use crate::words::{Piece, put_pieces};
use flashbase::{DeviceFault, Sink};
use jsteps::DeviceKind;

/// `time T`, where it is another than before.
fn put_time<T: Sink>(sink: &mut T, before: u32, time: u32) -> Result<(), DeviceFault>
    ensures { PutsTo T.Sink sink.old sink.new (lines_text (time_words before time)) result }
{
    if time == before {
        return Ok(());
    }
    put_pieces(
        sink,
        &[
            Piece::Plain(b"time "),
            Piece::Decimal(u64::from(time)),
            Piece::Plain(b"\n"),
        ],
    )
}

/// `owner UID GID`, where it is another than before.
fn put_owner<T: Sink>(
    sink: &mut T,
    before: Settings,
    attributes: &Attributes,
) -> Result<(), DeviceFault>
    ensures { PutsTo T.Sink sink.old sink.new
        (lines_text (owner_words before attributes.now)) result }
{
    if attributes.uid == before.uid && attributes.gid == before.gid {
        return Ok(());
    }
    put_pieces(
        sink,
        &[
            Piece::Plain(b"owner "),
            Piece::Decimal(u64::from(attributes.uid)),
            Piece::Plain(b" "),
            Piece::Decimal(u64::from(attributes.gid)),
            Piece::Plain(b"\n"),
        ],
    )
}

/// Whether an item is a further name.
fn is_link(what: &What) -> bool
    ensures { result ≡ is_link what.now }
{
    matches!(what, What::Link { .. })
}

/// The owner of an item, which a link has already.
fn put_own_owner<T: Sink>(sink: &mut T, before: Settings, item: &Item) -> Result<(), DeviceFault>
    ensures { PutsTo T.Sink sink.old sink.new (own_owner_text before item.now) result }
{
    if is_link(&item.what) {
        return Ok(());
    }
    put_owner(sink, before, &item.attributes)
}

/// What is set before an item.
fn put_settings<T: Sink>(sink: &mut T, before: Settings, item: &Item) -> Result<(), DeviceFault>
    ensures { PutsTo T.Sink sink.old sink.new (lines_text (setting_words before item.now)) result }
{
    put_time(sink, before.time, item.attributes.time)?;
    put_own_owner(sink, before, item)
}

/// A line with a mode and a path.
fn put_moded<'a, T: Sink>(
    sink: &mut T,
    verb: &'a [u8],
    mode: u32,
    path: &'a [u8],
) -> Result<(), DeviceFault>
    ensures { PutsTo T.Sink sink.old sink.new (moded_line verb.now mode path.now) result }
{
    put_pieces(
        sink,
        &[
            Piece::Plain(verb),
            Piece::Plain(b" "),
            Piece::Octal(mode),
            Piece::Plain(b" "),
            Piece::Escaped(path),
            Piece::Plain(b"\n"),
        ],
    )
}

/// A line with two paths, or a path and a target.
fn put_two<'a, T: Sink>(
    sink: &mut T,
    verb: &'a [u8],
    first: &'a [u8],
    second: &'a [u8],
) -> Result<(), DeviceFault>
    ensures { PutsTo T.Sink sink.old sink.new (paths_line verb.now first.now second.now) result }
{
    put_pieces(
        sink,
        &[
            Piece::Plain(verb),
            Piece::Plain(b" "),
            Piece::Escaped(first),
            Piece::Plain(b" "),
            Piece::Escaped(second),
            Piece::Plain(b"\n"),
        ],
    )
}

/// `file MODE PATH FILE`
fn put_file<'a, T: Sink>(
    sink: &mut T,
    mode: u32,
    path: &'a [u8],
    file: &'a [u8],
) -> Result<(), DeviceFault>
    ensures { PutsTo T.Sink sink.old sink.new (file_text mode path.now file.now) result }
{
    put_pieces(
        sink,
        &[
            Piece::Plain(b"file "),
            Piece::Octal(mode),
            Piece::Plain(b" "),
            Piece::Escaped(path),
            Piece::Plain(b" "),
            Piece::Escaped(file),
            Piece::Plain(b"\n"),
        ],
    )
}

/// The word of a kind.
fn device_letter(device: DeviceKind) -> &'static [u8]
    ensures { result.now ≡ device_letter device }
{
    match device {
        DeviceKind::Character => b"c",
        DeviceKind::Block => b"b",
    }
}

/// `device KIND MODE MAJOR MINOR PATH`
fn put_device<'a, T: Sink>(
    sink: &mut T,
    device: DeviceKind,
    mode: u32,
    major: u16,
    minor: u32,
    path: &'a [u8],
) -> Result<(), DeviceFault>
    ensures { PutsTo T.Sink sink.old sink.new
        (device_text device mode major minor path.now) result }
{
    put_pieces(
        sink,
        &[
            Piece::Plain(b"device "),
            Piece::Plain(device_letter(device)),
            Piece::Plain(b" "),
            Piece::Octal(mode),
            Piece::Plain(b" "),
            Piece::Decimal(u64::from(major)),
            Piece::Plain(b" "),
            Piece::Decimal(u64::from(minor)),
            Piece::Plain(b" "),
            Piece::Escaped(path),
            Piece::Plain(b"\n"),
        ],
    )
}

/// What makes an object.
fn put_object<T: Sink>(sink: &mut T, item: &Item) -> Result<(), DeviceFault>
    ensures { PutsTo T.Sink sink.old sink.new
        (lines_text (object_words (string_bytes item.now.path) item.now.attributes item.now.what))
        result }
{
    let path = item.path.as_bytes();
    match &item.what {
        What::Directory => put_moded(sink, b"mkdir", item.attributes.mode, path),
        What::Regular { file } => put_file(sink, item.attributes.mode, path, file.as_bytes()),
        What::Device {
            device,
            major,
            minor,
        } => put_device(sink, *device, item.attributes.mode, *major, *minor, path),
        What::Fifo => put_moded(sink, b"fifo", item.attributes.mode, path),
        What::Socket => put_moded(sink, b"socket", item.attributes.mode, path),
        What::Symlink { target } => put_two(sink, b"symlink", path, target.as_bytes()),
        What::Link { first } => put_two(sink, b"link", first.as_bytes(), path),
    }
}

/// The lines of an item.
fn put_item<T: Sink>(sink: &mut T, before: Settings, item: &Item) -> Result<(), DeviceFault>
    ensures { PutsTo T.Sink sink.old sink.new (lines_text (item_words before item.now)) result }
{
    put_settings(sink, before, item)?;
    put_object(sink, item)
}

/// What is set after an item.
fn settings_after(before: Settings, item: &Item) -> Settings
    ensures { result ≡ settings_with before item.now }
{
    let time = item.attributes.time;
    if is_link(&item.what) {
        return Settings { time, ..before };
    }
    Settings {
        time,
        uid: item.attributes.uid,
        gid: item.attributes.gid,
    }
}

/// The line of the root.
fn put_attr<T: Sink>(sink: &mut T, root: &Attributes) -> Result<(), DeviceFault>
    ensures { PutsTo T.Sink sink.old sink.new (lines_text (attr_words root.now)) result }
{
    put_pieces(
        sink,
        &[
            Piece::Plain(b"attr "),
            Piece::Octal(root.mode),
            Piece::Plain(b" "),
            Piece::Decimal(u64::from(root.uid)),
            Piece::Plain(b" "),
            Piece::Decimal(u64::from(root.gid)),
            Piece::Plain(b" "),
            Piece::Decimal(u64::from(root.time)),
            Piece::Plain(b" "),
            Piece::Decimal(u64::from(root.time)),
            Piece::Plain(b" /\n"),
        ],
    )
}

/// The lines of the root.
fn put_root<T: Sink>(sink: &mut T, root: &Attributes) -> Result<(), DeviceFault>
    ensures { PutsTo T.Sink sink.old sink.new (lines_text (root_words root.now)) result }
{
    put_time(sink, 0, root.time)?;
    put_attr(sink, root)
}

/// Puts the listing of a tree: its root's attributes, and then its items in their order. Takes no
/// memory.
pub fn put_listing<T: Sink>(
    root: &Attributes,
    items: &[Item],
    sink: &mut T,
) -> Result<(), DeviceFault>
    ensures { PutsTo T.Sink sink.old sink.new (listing_text root.now items.now) result }
{
    put_root(sink, root)?;
    let mut settings = Settings {
        time: root.time,
        uid: 0,
        gid: 0,
    };
    for item in items {
        put_item(sink, settings, item)?;
        settings = settings_after(settings, item);
    }
    Ok(())
}
