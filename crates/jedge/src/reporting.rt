//! What standard error is told of an answer, and how the program ends.
ghost use Rattle.std.specs.Prelude.{◌≡◌, ◌++◌, ℕ, List, [], Ok, Err, Some, option_map, unwrap_or};
ghost use Rattle.flashbase.specs.Sinks.{PutsTo};
ghost use Rattle.jhint.specs.Hints.{hint_lines};
ghost use Rattle.jedge.specs.Acts.{DoesFrom, says, seen_as};
ghost use Rattle.jedge.specs.Commands.{ends};
ghost use Rattle.jedge.specs.Faults.{TellsFault};
ghost use Rattle.jedge.specs.Missing.{bytes_missing_line};
ghost use Rattle.jedge.specs.Told.{found_told, note_text, read_note_text, shown_notes};
ghost use Rattle.jreport.specs.ExtractionNotes.{extraction_notes_of, line_of_count};
ghost use Rattle.jreport.specs.Notes.{note_line_of};
ghost use Rattle.jreserve.specs.Note.{reserve_line};

use crate::fault::Fault;
use crate::found::{BlankLeft, ContentNotes, Extracted, Found, Note, ReadNotes};
use crate::host::Host;
use crate::missing::put_missing;
use flashbase::{DeviceFault, Sink};
use jcommand::Outcome;
use jhint::put_hint;
use jinfo::put_container_note;
use jreport::{put_fault_and_note, put_named_notes, put_none_notes, put_note, put_notes};
use jreserve::put_reserve_note;

/// Puts the lines of a fault.
fn put_fault<T: Sink>(fault: &Fault, sink: &mut T) -> Result<(), DeviceFault>
    ensures { (text : List ℕ) × TellsFault fault.now text
        × PutsTo T.Sink sink.old sink.new text result }
{
    put_fault_and_note(&fault.told(), sink)
}

/// Says why a command ended early.
fn say_fault<H: Host>(host: &mut H, fault: &Fault)
    ensures { (text : List ℕ) × TellsFault fault.now text
        × DoesFrom (H.history host.old) (H.history host.new) (says (Some text)) (Ok result) }
{
    let mut errors = host.errors();
    let _ = put_fault(fault, &mut errors);
    host.close_errors(errors);
}

/// Puts the note on so many findings, where there are any.
fn put_findings<T: Sink>(findings: u64, sink: &mut T) -> Result<(), DeviceFault>
    ensures { PutsTo T.Sink sink.old sink.new (line_of_count note_line_of findings) result }
{
    if findings == 0 {
        return Ok(());
    }
    put_note(findings, sink)
}

/// Puts the notes on an image that is shown.
fn put_shown<T: Sink>(findings: u64, others: Option<u64>, sink: &mut T) -> Result<(), DeviceFault>
    ensures { PutsTo T.Sink sink.old sink.new (shown_notes findings others) result }
{
    match others {
        Some(others) => put_none_notes(findings, others, sink),
        None => put_findings(findings, sink),
    }
}

/// Puts them, and which options an image shows.
fn put_read<T: Sink>(of: ReadNotes, sink: &mut T) -> Result<(), DeviceFault>
    ensures { PutsTo T.Sink sink.old sink.new
        (shown_notes of.findings of.others ++ hint_lines of.hint) result }
{
    put_shown(of.findings, of.others, sink)?;
    put_hint(of.hint, sink)
}

/// Puts the note on bytes that are missing, and those on the image.
fn put_content<T: Sink>(of: ContentNotes, sink: &mut T) -> Result<(), DeviceFault>
    ensures { PutsTo T.Sink sink.old sink.new (bytes_missing_line of.missing
        ++ unwrap_or (option_map read_note_text of.read) []) result }
{
    put_missing(of.missing, sink)?;
    match of.read {
        Some(read) => put_read(read, sink),
        None => Ok(()),
    }
}

/// Puts the notes on an image that was extracted, and which options it shows.
fn put_extracted<T: Sink>(of: Extracted, sink: &mut T) -> Result<(), DeviceFault>
    ensures { PutsTo T.Sink sink.old sink.new (extraction_notes_of of.findings of.lost_bits
        of.attributes ++ hint_lines of.hint) result }
{
    put_notes(of.findings, of.lost_bits, of.attributes, sink)?;
    put_hint(of.hint, sink)
}

/// Puts them, and that fewer blank blocks are left than Linux keeps in reserve.
fn put_left<T: Sink>(of: BlankLeft, sink: &mut T) -> Result<(), DeviceFault>
    ensures { PutsTo T.Sink sink.old sink.new
        (shown_notes of.findings of.others ++ reserve_line of.left of.reserve) result }
{
    put_shown(of.findings, of.others, sink)?;
    put_reserve_note(of.left, of.reserve, sink)
}

/// Puts a note.
pub fn put_noted<T: Sink>(note: Note<'_>, sink: &mut T) -> Result<(), DeviceFault>
    ensures { PutsTo T.Sink sink.old sink.new (note_text note.entry) result }
{
    match note {
        Note::Container(container) => put_container_note(Some(container), sink),
        Note::Findings(findings) => put_note(findings, sink),
        Note::NoNodes { findings, others } => put_none_notes(findings, others, sink),
        Note::Extraction(of) => put_extracted(of, sink),
        Note::Both(first, second) => put_named_notes(
            first.name.as_bytes(),
            first.findings,
            second.name.as_bytes(),
            second.findings,
            sink,
        ),
        Note::Read(of) => put_read(of, sink),
        Note::Left(of) => put_left(of, sink),
        Note::Content(of) => put_content(of, sink),
    }
}

/// Says it.
fn say_note<H: Host>(host: &mut H, note: Note<'_>)
    ensures { DoesFrom (H.history host.old) (H.history host.new)
        (says (Some (note_text note.entry))) (Ok result) }
{
    let mut errors = host.errors();
    let _ = put_noted(note, &mut errors);
    host.close_errors(errors);
}

/// Says it where there is one.
pub fn say_noted<H: Host>(host: &mut H, note: Option<Note<'_>>)
    ensures { DoesFrom (H.history host.old) (H.history host.new)
        (says (option_map note_text note.entry)) (Ok result) }
{
    match note {
        Some(note) => say_note(host, note),
        None => {}
    }
}

/// Tells an answer on standard error, and how the program ends with it.
pub fn report<H: Host>(host: &mut H, answer: Result<Found<'_>, Fault>) -> Outcome
    ensures { DoesFrom (H.history host.old) (H.history host.new)
        (ends (seen_as found_told answer.entry)) (Ok result) }
{
    match answer {
        Ok(found) => {
            say_noted(host, found.note);
            Outcome::of(found.counted)
        }
        Err(fault) => {
            say_fault(host, &fault);
            Outcome::Fault
        }
    }
}
