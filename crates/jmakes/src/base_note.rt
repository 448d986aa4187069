//! What is told of a base that was read.
ghost use Rattle.std.specs.Prelude.{◌≡◌, None, Ok, Some, option_map};
ghost use Rattle.flashbase.specs.Sinks.{PutsTo};
ghost use Rattle.jedge.specs.Acts.{DoesFrom, says};
ghost use Rattle.jedge.specs.Commands.{shown_noted};
ghost use Rattle.jedge.specs.Told.{note_text};
ghost use Rattle.jedge.specs.Views.{viewed};
ghost use Rattle.jmakes.specs.Notes.{attributes_noted, text_or_none};
ghost use Rattle.jmakes.specs.Seen.{base_seen, note_seen};
ghost use Rattle.jmakes.specs.Writing.{told_on};

use flashbase::{DeviceFault, Sink};
use jedge::damage::findings_noted;
use jedge::found::Note;
use jedge::host::Host;
use jedge::reporting::say_noted;
use jedge::subject::Subject;
use jmount::Mounted;
use jreport::{noted, put_left_attributes, put_none_notes, put_note};

/// How many findings an image has that was read, and if no node is found in it, how many the other
/// byte order has; and how many nodes of extended attributes it has that the base does not.
#[derive(Clone, Copy)]
pub struct BaseNote {
    pub findings: u64,
    pub attributes: u64,
    pub others: Option<u64>,
}

/// What is noted of a subject.
fn note_of(subject: &Subject, mounted: &Mounted<'_>) -> BaseNote
    ensures { base_seen result ≡ told_on (Some (viewed subject.now)) mounted.now }
{
    match subject.found {
        Some(found) => BaseNote {
            findings: found.noted,
            attributes: found.attributes,
            others: subject.others,
        },
        None => BaseNote {
            findings: noted(mounted),
            attributes: 0,
            others: subject.others,
        },
    }
}

/// What is noted of a base, if one was read.
pub fn note_on(base: Option<&Subject>, mounted: &Mounted<'_>) -> Option<BaseNote>
    ensures { note_seen result
        ≡ told_on (option_map (λ subject. viewed subject.now) base.entry) mounted.now }
{
    match base {
        Some(subject) => Some(note_of(subject, mounted)),
        None => None,
    }
}

/// How many nodes of extended attributes are left out.
pub(crate) fn attributes_lost(note: Option<BaseNote>) -> u64
    ensures { result ≡ (note_seen note).counted }
{
    match note {
        Some(note) => note.attributes,
        None => 0,
    }
}

/// The note on findings, or on an image without a node, as any command tells it.
fn shown_noted(note: BaseNote) -> Option<Note<'static>>
    ensures { option_map note_text result ≡ shown_noted note.findings note.others }
{
    match note.others {
        Some(others) => Some(Note::NoNodes {
            findings: note.findings,
            others,
        }),
        None => findings_noted(note.findings),
    }
}

/// Puts the note on so many findings, if there are any.
fn put_findings<T: Sink>(findings: u64, sink: &mut T) -> Result<(), DeviceFault>
    ensures { PutsTo T.Sink sink.old sink.new (text_or_none (shown_noted findings None)) result }
{
    match findings {
        0 => Ok(()),
        _ => put_note(findings, sink),
    }
}

/// Puts the note on findings, or on an image without a node.
fn put_shown<T: Sink>(note: BaseNote, sink: &mut T) -> Result<(), DeviceFault>
    ensures { PutsTo T.Sink sink.old sink.new
        (text_or_none (shown_noted note.findings note.others)) result }
{
    match note.others {
        Some(others) => put_none_notes(note.findings, others, sink),
        None => put_findings(note.findings, sink),
    }
}

/// Puts the note on so many nodes of extended attributes, if there are any.
fn put_attributes<T: Sink>(attributes: u64, sink: &mut T) -> Result<(), DeviceFault>
    ensures { PutsTo T.Sink sink.old sink.new (text_or_none (attributes_noted attributes)) result }
{
    match attributes {
        0 => Ok(()),
        _ => put_left_attributes(attributes, sink),
    }
}

/// Puts both.
fn put_notes<T: Sink>(note: BaseNote, sink: &mut T) -> Result<(), DeviceFault>
    ensures { PutsTo T.Sink sink.old sink.new (text_or_none (base_seen note).noted) result }
{
    put_shown(note, sink)?;
    put_attributes(note.attributes, sink)
}

/// Puts what is noted, if there is anything.
pub(crate) fn put_base<T: Sink>(note: Option<BaseNote>, sink: &mut T) -> Result<(), DeviceFault>
    ensures { PutsTo T.Sink sink.old sink.new (text_or_none (note_seen note).noted) result }
{
    match note {
        Some(note) => put_notes(note, sink),
        None => Ok(()),
    }
}

/// Says both.
fn say_both<H: Host>(host: &mut H, note: BaseNote)
    ensures { DoesFrom (H.history host.old) (H.history host.new)
        (says (Some (text_or_none (base_seen note).noted))) (Ok result) }
{
    let mut errors = host.errors();
    let _ = put_notes(note, &mut errors);
    host.close_errors(errors);
}

/// Says what there is of them.
fn say_notes<H: Host>(host: &mut H, note: BaseNote)
    ensures { DoesFrom (H.history host.old) (H.history host.new)
        (says (base_seen note).noted) (Ok result) }
{
    match note.attributes {
        0 => say_noted(host, shown_noted(note)),
        _ => say_both(host, note),
    }
}

/// Says what is noted of a base, if there is anything.
pub(crate) fn say_base<H: Host>(host: &mut H, note: Option<BaseNote>)
    ensures { DoesFrom (H.history host.old) (H.history host.new)
        (says (note_seen note).noted) (Ok result) }
{
    match note {
        Some(note) => say_notes(host, note),
        None => say_noted(host, None),
    }
}
