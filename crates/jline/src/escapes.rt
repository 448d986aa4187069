//! Names, words and texts that go out escaped or as digits, however long they are.

ghost use Rattle.std.specs.Prelude.{◌≡◌, ◌+◌, ◌*◌, ◌≤◌, ◌++◌, length};
ghost use Rattle.flashbase.specs.Sinks.{PutsTo};
ghost use Rattle.jline.specs.Words.{escaped, in_line, spelled, word_of};

use crate::line::LineBuffer;
use crate::spelling::Spelling;
use crate::texts::put_text;
use flashbase::{DeviceFault, Sink};
use jnode::Part;

/// So many bytes go out at a time.
const PIECE: usize = 256;

/// Bytes that are few.
fn write_piece(line: &mut LineBuffer, spelling: Spelling, piece: &[u8])
    requires { length piece.now ≤ PIECE }
    ensures { line.new ≡ spelled spelling piece.now }
{
    line.clear();
    line.push_spelled(spelling, &Part::new(piece, 0));
}

/// Puts bytes, however many, by pieces.
fn put_spelled<T: Sink>(sink: &mut T, spelling: Spelling, bytes: &[u8]) -> Result<(), DeviceFault>
    ensures { PutsTo T.Sink sink.old sink.new (spelled spelling bytes.now) result }
{
    let mut line = LineBuffer::new();
    let mut start = 0;
    while start < bytes.len() {
        let end = bytes.len().min(start + PIECE);
        write_piece(&mut line, spelling, &bytes[start..end]);
        put_text(sink, line.as_slice())?;
        start = end;
    }
    Ok(())
}

/// Puts bytes, each that is not plain as `\x` and two hexadecimal digits. Takes no memory.
pub fn put_escaped<T: Sink>(sink: &mut T, bytes: &[u8]) -> Result<(), DeviceFault>
    ensures { PutsTo T.Sink sink.old sink.new (escaped bytes.now) result }
{
    put_spelled(sink, Spelling::Escaped, bytes)
}

/// Puts bytes within a line, each control byte as `\x` and two hexadecimal digits. Takes no memory.
pub fn put_in_line<T: Sink>(sink: &mut T, bytes: &[u8]) -> Result<(), DeviceFault>
    ensures { PutsTo T.Sink sink.old sink.new (in_line bytes.now) result }
{
    put_spelled(sink, Spelling::InLine, bytes)
}

/// Puts the bytes of a path or a target: a slash as it is, and each other byte that is not plain as
/// `\x` and two hexadecimal digits. Takes no memory.
pub fn put_word<T: Sink>(sink: &mut T, bytes: &[u8]) -> Result<(), DeviceFault>
    ensures { PutsTo T.Sink sink.old sink.new (word_of bytes.now) result }
{
    put_spelled(sink, Spelling::Word, bytes)
}
