//! Pieces of a line, and putting them.

ghost use Rattle.flashbase.specs.Sinks.{PutsTo};
ghost use Rattle.jfolder.specs.Pieces.{piece_text, pieces_text};

use flashbase::{DeviceFault, Sink};
use jline::{LineBuffer, put_text, put_word};

/// A piece of a line.
#[derive(Clone, Copy)]
pub enum Piece<'a> {
    /// Text as it is.
    Plain(&'a [u8]),
    Decimal(u64),
    Octal(u32),
    /// Bytes of a path, a target or a name, escaped.
    Escaped(&'a [u8]),
}

/// Puts a number.
fn put_decimal<T: Sink>(sink: &mut T, number: u64) -> Result<(), DeviceFault>
    ensures { PutsTo T.Sink sink.old sink.new (piece_text (Piece.Decimal number)) result }
{
    let mut line = LineBuffer::new();
    line.push_decimal(number);
    put_text(sink, line.as_slice())
}

/// Puts permission bits.
fn put_octal<T: Sink>(sink: &mut T, mode: u32) -> Result<(), DeviceFault>
    ensures { PutsTo T.Sink sink.old sink.new (piece_text (Piece.Octal mode)) result }
{
    let mut line = LineBuffer::new();
    line.push_octal(mode);
    put_text(sink, line.as_slice())
}

/// Puts a piece.
fn put_piece<T: Sink>(sink: &mut T, piece: &Piece<'_>) -> Result<(), DeviceFault>
    ensures { PutsTo T.Sink sink.old sink.new (piece_text piece.now) result }
{
    match piece {
        Piece::Plain(text) => put_text(sink, text),
        Piece::Decimal(number) => put_decimal(sink, *number),
        Piece::Octal(mode) => put_octal(sink, *mode),
        Piece::Escaped(bytes) => put_word(sink, bytes),
    }
}

/// Puts pieces one after the other. Takes no memory.
pub fn put_pieces<T: Sink>(sink: &mut T, pieces: &[Piece<'_>]) -> Result<(), DeviceFault>
    ensures { PutsTo T.Sink sink.old sink.new (pieces_text pieces.now) result }
{
    for piece in pieces {
        put_piece(sink, piece)?;
    }
    Ok(())
}
