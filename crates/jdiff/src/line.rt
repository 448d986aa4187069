//! The lines on a path.

ghost use Rattle.std.specs.Prelude.{◌≡◌, ◌+◌, ◌≤◌, ◌++◌, [], length, map};
ghost use Rattle.flashbase.specs.Sinks.{PutsTo};
ghost use Rattle.jdiff.specs.Changes.{bytes_differ_line, changed_line, entry_start, place_shown, time_shown};
ghost use Rattle.jdiff.specs.Walking.{entry_found, IsFoundIn};

use crate::found::Found;
use flashbase::{DeviceFault, Sink};
use jline::{LineBuffer, MAX_LINE, put_path, put_text};
use jmount::{Mounted, Object};
use jreport::{push_number, put_tail, write_mode};

/// The time of change, where it is compared.
fn push_time(line: &mut LineBuffer, times: bool, mtime: u32)
    requires { length line.old + 21 ≤ MAX_LINE }
    ensures text { line.new ≡ line.old ++ time_shown times mtime }
    ensures grows { length line.new ≤ length line.old + 21 }
{
    if times {
        push_number(line, mtime);
    }
}

/// What is before the path.
#[tactic(auto, unfolding(crate::specs::Changes::entry_start), using(std::proofs::Common::append_assoc))]
fn write_start(line: &mut LineBuffer, times: bool, object: &Object)
    requires { line.old ≡ [] }
    ensures { line.new ≡ entry_start times object.now }
{
    write_mode(line, object.kind, object.mode);
    push_number(line, u32::from(object.uid));
    push_number(line, u32::from(object.gid));
    push_number(line, object.size);
    push_time(line, times, object.mtime);
    line.push(b' ');
}

/// Puts a sign, and the line of an object. Takes no memory, however long the path and the names
/// are.
pub(crate) fn put_entry<T: Sink>(
    mounted: &Mounted<'_>,
    times: bool,
    sign: &[u8],
    path: &[&[u8]],
    found: &Found,
    sink: &mut T,
) -> Result<(), DeviceFault>
    requires { IsFoundIn mounted.now.state found.now }
    ensures { PutsTo T.Sink sink.old sink.new
        (sign.now ++ changed_line times (entry_found mounted.now.state
        (map (λ name. name.now) path.now) found.now)) result }
{
    let mut line = LineBuffer::new();
    write_start(&mut line, times, &found.object);
    put_text(sink, sign)?;
    put_text(sink, line.as_slice())?;
    put_path(sink, path)?;
    put_tail(mounted, found.ino, &found.object, found.again, sink)?;
    put_text(sink, b"\n")
}

/// The place from which on bytes differ.
fn write_place(line: &mut LineBuffer, place: u64)
    requires { line.old ≡ [] }
    ensures { line.new ≡ place_shown place }
{
    line.push_text(b" at ");
    line.push_decimal(place);
    line.push_text(b"\n");
}

/// Puts the line of a file whose bytes differ from a place on.
pub(crate) fn put_place<T: Sink>(
    path: &[&[u8]],
    place: u64,
    sink: &mut T,
) -> Result<(), DeviceFault>
    ensures { PutsTo T.Sink sink.old sink.new
        (bytes_differ_line (map (λ name. name.now) path.now) place) result }
{
    let mut line = LineBuffer::new();
    write_place(&mut line, place);
    put_text(sink, b"* ")?;
    put_path(sink, path)?;
    put_text(sink, line.as_slice())
}
