//! The note that fewer blank blocks are left than Linux keeps in reserve.

ghost use Rattle.std.specs.Prelude.{◌≡◌, ◌≤◌, length};
ghost use Rattle.flashbase.specs.Sinks.{PutsTo};
ghost use Rattle.jreserve.specs.Note.{blank_text, reserve_line};

use flashbase::{DeviceFault, Sink};
use jline::{LineBuffer, put_text};

/// What is said of so many blank blocks.
#[tactic(auto, unfolding(crate::specs::Note::blank_text))]
fn blank_text(blocks: u64) -> &'static [u8]
    ensures text { result.now ≡ blank_text blocks }
    ensures short { length result.now ≤ 40 }
{
    match blocks {
        1 => b" blank block is left, Linux keeps ",
        _ => b" blank blocks are left, Linux keeps ",
    }
}

/// Writes the note that so many are left, and that Linux keeps so many.
#[tactic(auto, unfolding(crate::specs::Note::reserve_line))]
fn write_reserve(line: &mut LineBuffer, left: u64, reserve: u64)
    ensures { line.new ≡ reserve_line left reserve }
{
    line.clear();
    line.push_text(b"jffs2_image: note: ");
    line.push_decimal(left);
    line.push_text(blank_text(left));
    line.push_decimal(reserve);
    line.push_text(b" in reserve\n");
}

/// Puts the note that so many blank blocks are left, and that Linux keeps so many in reserve, as it
/// is on standard error.
pub fn put_reserve_note<T: Sink>(left: u64, reserve: u64, sink: &mut T) -> Result<(), DeviceFault>
    ensures { PutsTo T.Sink sink.old sink.new (reserve_line left reserve) result }
{
    let mut line = LineBuffer::new();
    write_reserve(&mut line, left, reserve);
    put_text(sink, line.as_slice())
}
