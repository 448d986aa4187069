//! What is told of what is left out.

ghost use Rattle.std.specs.Prelude.{◌≡◌, ◌∷◌, []};
ghost use Rattle.flashbase.specs.Sinks.{PutsTo, change_of};
ghost use Rattle.jfolder.specs.Notes.{TellsMore, TellsWhy, count_text, left_out_line, not_listed_line};
ghost use Rattle.jfolder.specs.Pieces.{piece_text};

use crate::fault::ReadFault;
use crate::reason::Reason;
use crate::words::{Piece, put_pieces};
use flashbase::{DeviceFault, Sink};

/// How many names there are, after the reason in words.
fn count_of(reason: Reason) -> Piece<'static>
    ensures { piece_text result ≡ count_text reason }
{
    match reason {
        Reason::Unnamed(count) => Piece::Decimal(count),
        _ => Piece::Plain(b""),
    }
}

/// Puts the line of a path that is left out.
#[tactic(auto, unfolding(crate::specs::Notes::left_out_line))]
fn put_left_out<N: Sink>(notes: &mut N, path: &[u8], reason: Reason) -> Result<(), DeviceFault>
    ensures { PutsTo N.Sink notes.old notes.new (left_out_line (path.now, reason)) result }
{
    put_pieces(
        notes,
        &[
            Piece::Plain(b"left out "),
            Piece::Escaped(path),
            Piece::Plain(b": "),
            Piece::Plain(reason.text().as_bytes()),
            count_of(reason),
            Piece::Plain(b"\n"),
        ],
    )
}

/// Tells that a path is left out, and counts it.
pub fn leave_out<N: Sink>(
    notes: &mut N,
    count: &mut u64,
    path: &[u8],
    reason: Reason,
) -> Result<(), ReadFault>
    ensures { TellsMore (λ _ lefts. lefts ≡ (path.now, reason) ∷ [])
        (λ lefts. lefts ≡ (path.now, reason) ∷ [])
        (change_of N.Sink notes.old notes.new) count.old count.new
        result }
{
    match put_left_out(notes, path, reason) {
        Ok(()) => {
            *count = count.wrapping_add(1);
            Ok(())
        }
        Err(DeviceFault) => Err(ReadFault::Notes),
    }
}

/// Puts the line of a folder that is not read.
fn put_not_listed<N: Sink>(notes: &mut N, reason: Reason) -> Result<(), DeviceFault>
    ensures { PutsTo N.Sink notes.old notes.new (not_listed_line reason) result }
{
    put_pieces(
        notes,
        &[
            Piece::Plain(b"not listed: "),
            Piece::Plain(reason.text().as_bytes()),
            Piece::Plain(b"\n"),
        ],
    )
}

/// Tells why a folder is not read, and answers the fault of that.
pub fn refuse_folder<N: Sink>(notes: &mut N, reason: Reason) -> ReadFault
    ensures { TellsWhy reason
        (change_of N.Sink notes.old notes.new) result }
{
    match put_not_listed(notes, reason) {
        Ok(()) => ReadFault::Folder(reason),
        Err(DeviceFault) => ReadFault::Notes,
    }
}
