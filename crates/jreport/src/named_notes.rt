//! The notes on the findings of images that their names tell apart.

ghost use Rattle.std.specs.Prelude.{◌≡◌, []};
ghost use Rattle.flashbase.specs.Sinks.{PutsTo};
ghost use Rattle.jreport.specs.ExtractionNotes.{line_of_count};
ghost use Rattle.jreport.specs.NamedNotes.{named_findings, named_note_of, named_notes_of};

use crate::advice::put_note;
use crate::notes::findings_text;
use flashbase::{DeviceFault, Sink};
use jline::LineBuffer;

/// What is said of so many findings behind the name of their image.
#[tactic(auto, unfolding(crate::specs::NamedNotes::named_findings))]
fn write_named(line: &mut LineBuffer, findings: u64)
    requires { line.old ≡ [] }
    ensures { line.new ≡ named_findings findings }
{
    line.push_text(b": ");
    line.push_decimal(findings);
    line.push_text(findings_text(findings));
}

/// Puts the note on so many findings of the image of a name; nothing on none.
fn put_named<T: Sink>(name: &[u8], findings: u64, sink: &mut T) -> Result<(), DeviceFault>
    ensures { PutsTo T.Sink sink.old sink.new
        (line_of_count (named_note_of name.now) findings) result }
{
    if findings == 0 {
        return Ok(());
    }
    let mut line = LineBuffer::new();
    write_named(&mut line, findings);
    put_note(sink, name, line.as_slice())
}

/// Puts a note each on so many findings of the images of two names; none on none.
pub fn put_named_notes<T: Sink>(
    first: &[u8],
    findings: u64,
    second: &[u8],
    others: u64,
    sink: &mut T,
) -> Result<(), DeviceFault>
    ensures { PutsTo T.Sink sink.old sink.new
        (named_notes_of first.now findings second.now others) result }
{
    put_named(first, findings, sink)?;
    put_named(second, others, sink)
}
