//! Members of an object.
ghost use Rattle.std.specs.Prelude.{◌≡◌, ◌≤◌, ◌++◌, codes, length, true, decimal, vec_capacity};
ghost use Rattle.flashbase.specs.Sinks.{PutsTo};
ghost use Rattle.jjson.specs.Json.{member, string_of, text_member};
ghost use Rattle.jjson.specs.Numbers.{address_number, is_address};
ghost use Rattle.jjson.specs.Shapes.{fits, part_gives, members, part_takes};
ghost use Rattle.jjson.specs.Words.{meant, words_of};

use crate::numbers::address_of;
use crate::part::{PartKind, kind_of};
use crate::spelling::Spelling;
use crate::strings::put_string;
use crate::texts::put_texts;
use crate::words::{next_word, unescape_into};
use flashbase::{DeviceFault, Sink};
use jline::LineBuffer;

/// Puts a member whose value is spelled already.
fn put_member<T: Sink>(sink: &mut T, name: &[u8], value: &[u8]) -> Result<(), DeviceFault>
    ensures { PutsTo T.Sink sink.old sink.new (member name.now value.now) result }
{
    put_texts(sink, &[b",\"", name, b"\":", value])
}

/// Puts a member that is a string, with what ends its name.
fn put_string_member<T: Sink>(
    sink: &mut T,
    name: &[u8],
    end: &[u8],
    way: Spelling,
    bytes: &[u8],
) -> Result<(), DeviceFault>
    ensures { PutsTo T.Sink sink.old sink.new
        (codes ",\"" ++ (name.now ++ (end.now ++ string_of way bytes.now))) result }
{
    put_texts(sink, &[b",\"", name, end])?;
    put_string(sink, way, bytes)
}

/// Puts a member that is a text: a string, or the digits of bytes that are not UTF-8.
pub(crate) fn put_text_member<T: Sink>(
    sink: &mut T,
    name: &[u8],
    bytes: &[u8],
) -> Result<(), DeviceFault>
    ensures { PutsTo T.Sink sink.old sink.new (text_member name.now bytes.now) result }
{
    match str::from_utf8(bytes) {
        Ok(_) => put_string_member(sink, name, b"\":", Spelling::Text, bytes),
        Err(_) => put_string_member(sink, name, b"_bytes\":", Spelling::Hex, bytes),
    }
}

/// Puts a member that is an address, as a number.
fn put_address<T: Sink>(sink: &mut T, name: &[u8], word: &[u8]) -> Result<(), DeviceFault>
    requires { is_address word.now ≡ true }
    ensures { PutsTo T.Sink sink.old sink.new
        (member name.now (decimal (address_number word.now))) result }
{
    let mut number = LineBuffer::new();
    number.push_decimal(address_of(word));
    put_member(sink, name, number.as_slice())
}

/// Puts a member that is what a word with escapes stands for.
fn put_meant<T: Sink>(
    sink: &mut T,
    name: &[u8],
    word: &[u8],
    room: &mut Vec<u8>,
) -> Result<(), DeviceFault>
    requires { length word.now ≤ vec_capacity room.old }
    ensures puts { PutsTo T.Sink sink.old sink.new (text_member name.now (meant word.now)) result }
    ensures room { vec_capacity room.new ≡ vec_capacity room.old }
{
    if unescape_into(word, room) {
        put_text_member(sink, name, room.as_slice())
    } else {
        put_text_member(sink, name, word)
    }
}

/// Puts the member that a part gives for its word.
fn put_given<T: Sink>(
    sink: &mut T,
    part: &[u8],
    word: &[u8],
    room: &mut Vec<u8>,
) -> Result<(), DeviceFault>
    requires takes { part_takes part.now word.now ≡ true }
    requires room { length word.now ≤ vec_capacity room.old }
    ensures puts { PutsTo T.Sink sink.old sink.new (part_gives part.now word.now) result }
    ensures room { vec_capacity room.new ≡ vec_capacity room.old }
{
    let Some((mark, name)) = part.split_first() else {
        return Ok(());
    };
    match kind_of(*mark) {
        PartKind::Number | PartKind::Large => put_member(sink, name, word),
        PartKind::Address => put_address(sink, name, word),
        PartKind::Text => put_text_member(sink, name, word),
        PartKind::Name | PartKind::Path => put_meant(sink, name, word, room),
        PartKind::Flag => put_member(sink, name, b"true"),
        PartKind::Empty => put_text_member(sink, name, b""),
        PartKind::Word => Ok(()),
    }
}

/// Puts the members of a line that fits the parts. A shape has few parts, so the calls are not deep.
pub(crate) fn put_members<T: Sink>(
    sink: &mut T,
    parts: &[u8],
    line: &[u8],
    room: &mut Vec<u8>,
) -> Result<(), DeviceFault>
    requires fits { fits (words_of parts.now) (words_of line.now) ≡ true }
    requires room { length line.now ≤ vec_capacity room.old }
    ensures puts { PutsTo T.Sink sink.old sink.new
        (members (words_of parts.now) (words_of line.now)) result }
    ensures room { vec_capacity room.new ≡ vec_capacity room.old }
{
    let Some((part, parts)) = next_word(parts) else {
        return Ok(());
    };
    let Some((word, line)) = next_word(line) else {
        return Ok(());
    };
    put_given(sink, part, word, room)?;
    put_members(sink, parts, line, room)
}
