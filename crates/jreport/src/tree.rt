//! What `ls` prints of an object of a mounted image.

ghost use Rattle.std.specs.Prelude.{◌≡◌, ◌+◌, ◌%◌, ◌<◌, ◌≤◌, ◌++◌, [], Some, codes, decimal, length, map, option_map};
ghost use Rattle.flashbase.specs.Sinks.{PutsTo};
ghost use Rattle.jmount.specs.Tree as tree;
ghost use Rattle.jmount.specs.Shown.{readable, shown};
ghost use Rattle.jreport.specs.TreeText.{kind_letter, permissions, object_start, target_shown, tail_shown, object_line};

use flashbase::{DeviceFault, Sink};
use jline::{LineBuffer, MAX_LINE, put_escaped, put_path, put_text};
use jmount::{GREATEST_TARGET, Kind, Mounted, Object};

/// The letter of a kind.
fn letter(kind: Kind) -> &'static [u8]
    ensures { result.now ≡ kind_letter kind }
{
    match kind {
        Kind::Fifo => b"p",
        Kind::CharacterDevice => b"c",
        Kind::Directory => b"d",
        Kind::BlockDevice => b"b",
        Kind::Regular => b"-",
        Kind::Symlink => b"l",
        Kind::Socket => b"s",
        Kind::Other => b"?",
    }
}

/// The last octal digit of a number.
fn octal_digit(n: u32) -> u8
    ensures { result ≡ 48 + n % 8 }
{
    b'0' + (n % 8) as u8
}

/// The letter of a kind, a space, and the permissions as four octal digits, as `ls` prints them.
/// Set-id and sticky bits are in the first digit.
pub fn write_mode(line: &mut LineBuffer, kind: Kind, mode: u32)
    requires { line.old ≡ [] }
    ensures text { line.new ≡ kind_letter kind ++ codes " " ++ permissions mode }
    ensures short { length line.new ≤ 6 }
{
    line.push_text(letter(kind));
    line.push(b' ');
    line.push_text(&[
        octal_digit(mode / 512),
        octal_digit(mode / 64),
        octal_digit(mode / 8),
        octal_digit(mode),
    ]);
}

/// A space, and a number in decimal digits. The line must have room for 21 bytes.
pub fn push_number(line: &mut LineBuffer, n: u32)
    requires { length line.old + 21 ≤ MAX_LINE }
    ensures text { line.new ≡ line.old ++ codes " " ++ decimal n }
    ensures grows { length line.new ≤ length line.old + 21 }
{
    line.push(b' ');
    line.push_decimal(u64::from(n));
}

/// What is before the path.
#[tactic(auto, unfolding(crate::specs::TreeText::object_start), using(std::proofs::Common::append_assoc))]
fn write_object(line: &mut LineBuffer, ino: u32, object: &Object)
    requires { line.old ≡ [] }
    ensures { line.new ≡ object_start ino object.now }
{
    write_mode(line, object.kind, object.mode);
    push_number(line, u32::from(object.uid));
    push_number(line, u32::from(object.gid));
    push_number(line, object.size);
    push_number(line, object.mtime);
    push_number(line, ino);
    line.push(b' ');
}

/// Puts where a symlink of this size leads.
#[tactic(auto, unfolding(crate::specs::TreeText::target_shown))]
fn put_target<T: Sink>(
    mounted: &Mounted<'_>,
    ino: u32,
    size: u32,
    sink: &mut T,
) -> Result<(), DeviceFault>
    requires { length (readable mounted.now.state ino) ≡ size }
    ensures { PutsTo T.Sink sink.old sink.new
        (target_shown (readable mounted.now.state ino)) result }
{
    if size as usize > GREATEST_TARGET {
        return put_text(sink, b" -> (long)");
    }
    let mut target = [0u8; GREATEST_TARGET];
    let count = mounted.read_at(ino, 0, &mut target);
    put_text(sink, b" -> ")?;
    put_escaped(sink, &target[..count])
}

/// Puts what follows the path on a line of `ls`: where a symlink leads, ` (again)` after another
/// kind that was met before (`again`), else nothing. Takes no memory. A put that fails took a
/// beginning of that.
pub fn put_tail<T: Sink>(
    mounted: &Mounted<'_>,
    ino: u32,
    object: &Object,
    again: bool,
    sink: &mut T,
) -> Result<(), DeviceFault>
    requires { option_map shown (tree.object mounted.now.state ino) ≡ Some object.now }
    ensures { PutsTo T.Sink sink.old sink.new
        (tail_shown (readable mounted.now.state ino) object.now.kind again) result }
{
    match object.kind {
        Kind::Symlink => put_target(mounted, ino, object.size, sink),
        _ if again => put_text(sink, b" (again)"),
        _ => Ok(()),
    }
}

/// Puts the line of an object. `again` says that it is a directory that was met before. Takes no
/// memory, however long the path and the names are.
pub(crate) fn put_object<T: Sink>(
    mounted: &Mounted<'_>,
    path: &[&[u8]],
    ino: u32,
    object: &Object,
    again: bool,
    sink: &mut T,
) -> Result<(), DeviceFault>
    requires { option_map shown (tree.object mounted.now.state ino) ≡ Some object.now }
    ensures { PutsTo T.Sink sink.old sink.new
        (object_line mounted.now.state (map (λ name. name.now) path.now) ino object.now again)
        result }
{
    let mut line = LineBuffer::new();
    write_object(&mut line, ino, object);
    put_text(sink, line.as_slice())?;
    put_path(sink, path)?;
    put_tail(mounted, ino, object, again, sink)?;
    put_text(sink, b"\n")
}
