//! Strings of JSON, however long they are.
ghost use Rattle.std.specs.Prelude.{◌≡◌, ◌+◌, ◌*◌, ◌≤◌, ◌++◌, length};
ghost use Rattle.flashbase.specs.Sinks.{PutsTo};
ghost use Rattle.jjson.specs.Json.{hex_pair, string_spelled, string_spelled_byte, string_byte, string_of};

use crate::spelling::Spelling;
use flashbase::{DeviceFault, Sink};
use jline::{LineBuffer, MAX_LINE, put_text};

/// So many bytes go out at a time.
const PIECE: usize = 128;

/// The two hexadecimal digits of a byte.
fn push_hex_pair(line: &mut LineBuffer, byte: u8)
    requires { length line.old + 2 ≤ MAX_LINE }
    ensures text { line.new ≡ line.old ++ hex_pair byte }
    ensures grows { length line.new ≤ length line.old + 2 }
{
    line.push_hex(2, u64::from(byte));
}

fn push_string_byte(line: &mut LineBuffer, byte: u8)
    requires { length line.old + 6 ≤ MAX_LINE }
    ensures text { line.new ≡ line.old ++ string_byte byte }
    ensures grows { length line.new ≤ length line.old + 6 }
{
    if byte == b'"' || byte == b'\\' {
        line.push_text(&[b'\\', byte]);
    } else if byte < 0x20 {
        line.push_text(b"\\u00");
        push_hex_pair(line, byte);
    } else {
        line.push(byte);
    }
}

fn push_spelled_byte(line: &mut LineBuffer, way: Spelling, byte: u8)
    requires { length line.old + 6 ≤ MAX_LINE }
    ensures text { line.new ≡ line.old ++ string_spelled_byte way byte }
    ensures grows { length line.new ≤ length line.old + 6 }
{
    match way {
        Spelling::Text => push_string_byte(line, byte),
        Spelling::Hex => push_hex_pair(line, byte),
    }
}

/// Bytes that are few.
fn write_piece(line: &mut LineBuffer, way: Spelling, piece: &[u8])
    requires { length piece.now ≤ PIECE }
    ensures { line.new ≡ string_spelled way piece.now }
{
    line.clear();
    for byte in piece {
        push_spelled_byte(line, way, *byte);
    }
}

/// Puts bytes, however many, by pieces.
fn put_spelled<T: Sink>(sink: &mut T, way: Spelling, bytes: &[u8]) -> Result<(), DeviceFault>
    ensures { PutsTo T.Sink sink.old sink.new (string_spelled way bytes.now) result }
{
    let mut line = LineBuffer::new();
    let mut start = 0;
    while start < bytes.len() {
        let end = bytes.len().min(start + PIECE);
        write_piece(&mut line, way, &bytes[start..end]);
        put_text(sink, line.as_slice())?;
        start = end;
    }
    Ok(())
}

/// Puts a string of bytes.
pub(crate) fn put_string<T: Sink>(
    sink: &mut T,
    way: Spelling,
    bytes: &[u8],
) -> Result<(), DeviceFault>
    ensures { PutsTo T.Sink sink.old sink.new (string_of way bytes.now) result }
{
    put_text(sink, b"\"")?;
    put_spelled(sink, way, bytes)?;
    put_text(sink, b"\"")
}
