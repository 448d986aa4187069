//! The JSON of a line.
ghost use Rattle.std.specs.Prelude.{◌≡◌, ◌≤◌, codes, length, find, option_map, true, vec_capacity};
ghost use Rattle.flashbase.specs.Sinks.{PutsTo};
ghost use Rattle.jjson.specs.Json.{json_object, text_member};
ghost use Rattle.jjson.specs.Shapes.{has_shape, shaped_line};
ghost use Rattle.jjson.specs.Tables.{row_of, shapes};
ghost use Rattle.jjson.specs.Texts.{json_line};

use crate::lines::Lines;
use crate::members::{put_members, put_text_member};
use crate::part::fits;
use crate::table::{Shape, shapes_of};
use crate::texts::put_texts;
use flashbase::{DeviceFault, Sink};
use jline::put_text;

/// The first of some shapes that a line has.
fn first_of(shapes: &[Shape], line: &[u8]) -> Option<Shape>
    ensures { result ≡ find (λ shape. has_shape line.now (row_of shape)) shapes.now }
{
    shapes.iter().copied().find(|shape| fits(shape.1, line))
}

/// The first shape that a line has.
fn shape_of(lines: Lines, line: &[u8]) -> Option<Shape>
    ensures { option_map row_of result ≡ find (has_shape line.now) (shapes lines) }
{
    first_of(shapes_of(lines), line)
}

/// Puts the JSON of a line that has a shape.
fn put_shaped<T: Sink>(
    sink: &mut T,
    shape: Shape,
    line: &[u8],
    room: &mut Vec<u8>,
) -> Result<(), DeviceFault>
    requires fits { has_shape line.now (row_of shape) ≡ true }
    requires room { length line.now ≤ vec_capacity room.old }
    ensures puts { PutsTo T.Sink sink.old sink.new (shaped_line (row_of shape) line.now) result }
    ensures room { vec_capacity room.new ≡ vec_capacity room.old }
{
    let Shape(kind, parts) = shape;
    if kind.is_empty() {
        return Ok(());
    }
    put_texts(sink, &[b"{\"line\":\"", kind, b"\""])?;
    put_members(sink, parts, line, room)?;
    put_text(sink, b"}\n")
}

/// Puts the JSON of a line that has none of the shapes.
fn put_unshaped<T: Sink>(sink: &mut T, line: &[u8]) -> Result<(), DeviceFault>
    ensures { PutsTo T.Sink sink.old sink.new
        (json_object (codes "text") (text_member (codes "text") line.now)) result }
{
    put_text(sink, b"{\"line\":\"text\"")?;
    put_text_member(sink, b"text", line)?;
    put_text(sink, b"}\n")
}

/// Puts the JSON of a line, which is given without its line feed. The buffer has room for the
/// line's bytes, so it takes no memory; in time linear in them.
///
/// # Errors
/// The sink failed; a beginning of the JSON went out.
pub fn put_line<T: Sink>(
    lines: Lines,
    line: &[u8],
    room: &mut Vec<u8>,
    sink: &mut T,
) -> Result<(), DeviceFault>
    requires { length line.now ≤ vec_capacity room.old }
    ensures puts { PutsTo T.Sink sink.old sink.new (json_line lines line.now) result }
    ensures room { vec_capacity room.new ≡ vec_capacity room.old }
{
    match shape_of(lines, line) {
        Some(shape) => put_shaped(sink, shape, line, room),
        None => put_unshaped(sink, line),
    }
}
