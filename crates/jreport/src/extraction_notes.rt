//! The notes after an image was extracted, or another one was made of it.

ghost use Rattle.std.specs.Prelude.{◌≡◌};
ghost use Rattle.flashbase.specs.Sinks.{PutsTo};
ghost use Rattle.jreport.specs.ExtractionNotes.{attribute_count, attributes_line_of, extraction_notes_of, is_attribute_node, left_attributes_line_of, line_of_count, lost_bits_line_of};
ghost use Rattle.jreport.specs.Notes.{note_line_of};

use crate::notes::put_note;
use flashbase::{DeviceFault, Sink};
use jline::{LineBuffer, put_text};
use jmount::Mounted;
use jscan::FindingKind;

pub fn is_attribute(kind: FindingKind) -> bool
    ensures { result ≡ is_attribute_node kind }
{
    match kind {
        FindingKind::Attribute => true,
        _ => false,
    }
}

/// How many nodes of extended attributes a mounted image has.
pub fn attribute_count(mounted: &Mounted<'_>) -> u64
    ensures { result ≡ attribute_count mounted.now }
{
    let mut count = 0;
    for finding in mounted.findings() {
        if is_attribute(finding.kind) {
            count += 1;
        }
    }
    count
}

#[tactic(auto, unfolding(crate::specs::ExtractionNotes::lost_bits_line_of))]
fn write_lost_bits(line: &mut LineBuffer, objects: u64)
    ensures { line.new ≡ lost_bits_line_of objects }
{
    line.clear();
    line.push_text(b"jffs2_image: note: objects that lost set-user-id or set-group-id bits: ");
    line.push_decimal(objects);
    line.push_text(b", see extract --owners\n");
}

#[tactic(auto, unfolding(crate::specs::ExtractionNotes::attributes_line_of))]
fn write_attributes(line: &mut LineBuffer, nodes: u64)
    ensures { line.new ≡ attributes_line_of nodes }
{
    line.clear();
    line.push_text(b"jffs2_image: note: nodes of extended attributes, which are not extracted: ");
    line.push_decimal(nodes);
    line.push_text(b"\n");
}

fn put_findings<T: Sink>(findings: u64, sink: &mut T) -> Result<(), DeviceFault>
    ensures { PutsTo T.Sink sink.old sink.new (line_of_count note_line_of findings) result }
{
    if findings == 0 {
        return Ok(());
    }
    put_note(findings, sink)
}

fn put_lost_bits<T: Sink>(objects: u64, sink: &mut T) -> Result<(), DeviceFault>
    ensures { PutsTo T.Sink sink.old sink.new (line_of_count lost_bits_line_of objects) result }
{
    if objects == 0 {
        return Ok(());
    }
    let mut line = LineBuffer::new();
    write_lost_bits(&mut line, objects);
    put_text(sink, line.as_slice())
}

fn put_attributes<T: Sink>(nodes: u64, sink: &mut T) -> Result<(), DeviceFault>
    ensures { PutsTo T.Sink sink.old sink.new (line_of_count attributes_line_of nodes) result }
{
    if nodes == 0 {
        return Ok(());
    }
    let mut line = LineBuffer::new();
    write_attributes(&mut line, nodes);
    put_text(sink, line.as_slice())
}

#[tactic(auto, unfolding(crate::specs::ExtractionNotes::left_attributes_line_of))]
fn write_left_attributes(line: &mut LineBuffer, nodes: u64)
    ensures { line.new ≡ left_attributes_line_of nodes }
{
    line.clear();
    line.push_text(b"jffs2_image: note: nodes of extended attributes, which are left out: ");
    line.push_decimal(nodes);
    line.push_text(b"\n");
}

/// Puts the note on so many nodes of extended attributes that are left out of the image that is
/// made; none on none.
pub fn put_left_attributes<T: Sink>(nodes: u64, sink: &mut T) -> Result<(), DeviceFault>
    ensures { PutsTo T.Sink sink.old sink.new (line_of_count left_attributes_line_of nodes) result }
{
    if nodes == 0 {
        return Ok(());
    }
    let mut line = LineBuffer::new();
    write_left_attributes(&mut line, nodes);
    put_text(sink, line.as_slice())
}

/// Puts a note each on so many findings, objects that lost bits of their modes, and nodes of
/// extended attributes; none on none.
pub fn put_notes<T: Sink>(
    findings: u64,
    lost_bits: u64,
    attributes: u64,
    sink: &mut T,
) -> Result<(), DeviceFault>
    ensures { PutsTo T.Sink sink.old sink.new
        (extraction_notes_of findings lost_bits attributes) result }
{
    put_findings(findings, sink)?;
    put_lost_bits(lost_bits, sink)?;
    put_attributes(attributes, sink)
}
