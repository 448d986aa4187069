//! What standard error is told of what an image has that does not go out.
ghost use Rattle.std.specs.Prelude.{◌≡◌, ◌++◌, Ok, Some};
ghost use Rattle.flashbase.specs.Sinks.{PutsTo};
ghost use Rattle.jedge.specs.Acts.{DoesFrom, says, seen_as};
ghost use Rattle.jedge.specs.Commands.{ends};
ghost use Rattle.jremakes.specs.Leaving.{apart_told, clashing_line, clashing_lines, findings_line, leaves_none, left_out_noted, remade_noted, remade_notes, remade_told};

use crate::apart::ApartDone;
use flashbase::{DeviceFault, Sink};
use jcommand::Outcome;
use jconvert::LeftOut;
use jedge::damage::either;
use jedge::fault::Fault;
use jedge::host::Host;
use jedge::reporting::{report, say_noted};
use jline::{LineBuffer, put_text};
use jreport::{Found, put_left_attributes, put_note};

/// Puts the note on so many findings, if there are any.
fn put_findings<T: Sink>(sink: &mut T, findings: u64) -> Result<(), DeviceFault>
    ensures { PutsTo T.Sink sink.old sink.new (findings_line findings) result }
{
    match findings {
        0 => Ok(()),
        _ => put_note(findings, sink),
    }
}

/// Puts the notes on what an image has that does not go out.
fn put_found<T: Sink>(sink: &mut T, found: Found) -> Result<(), DeviceFault>
    ensures { PutsTo T.Sink sink.old sink.new (remade_notes found) result }
{
    match put_findings(sink, found.noted) {
        Ok(()) => put_left_attributes(found.attributes, sink),
        Err(fault) => Err(fault),
    }
}

/// Says them.
fn say_found<H: Host>(host: &mut H, found: Found)
    ensures { DoesFrom (H.history host.old) (H.history host.new)
        (says (Some (remade_notes found))) (Ok result) }
{
    let mut errors = host.errors();
    let _ = put_found(&mut errors, found);
    host.close_errors(errors);
}

/// Whether an image has nothing that they are on.
fn leaves_none(found: Found) -> bool
    ensures { result ≡ leaves_none found }
{
    found.noted == 0 && found.attributes == 0
}

/// Says what there is of them.
fn say_remade<H: Host>(host: &mut H, found: Found)
    ensures { DoesFrom (H.history host.old) (H.history host.new)
        (says (remade_noted found)) (Ok result) }
{
    if leaves_none(found) {
        say_noted(host, None);
    } else {
        say_found(host, found);
    }
}

/// Tells on standard error what was found in an image that another one was made of, or why none
/// was; and how the program ends with it.
pub(crate) fn report_remade<H: Host>(host: &mut H, answer: Result<Found, Fault>) -> Outcome
    ensures { DoesFrom (H.history host.old) (H.history host.new)
        (ends (seen_as remade_told answer)) (Ok result) }
{
    match answer {
        Ok(found) => {
            say_remade(host, found);
            Outcome::of(found.count())
        }
        Err(fault) => report(host, Err(fault)),
    }
}

/// Writes the line of a node that is left out over what a buffer has.
fn write_left_out(text: &mut LineBuffer, left: LeftOut)
    ensures { text.new ≡ clashing_line left }
{
    text.clear();
    text.push_text(b"left out ");
    text.push_hex(8, u64::from(left.addr));
    text.push_text(b": clashes with ");
    text.push_hex(8, u64::from(left.by));
    text.push_text(b"\n");
}

/// Puts the lines of nodes that are left out.
fn put_lines<T: Sink>(sink: &mut T, left: &[LeftOut]) -> Result<(), DeviceFault>
    ensures { PutsTo T.Sink sink.old sink.new (clashing_lines left.now) result }
{
    let mut text = LineBuffer::new();
    let mut i = 0;
    while i < left.len() {
        write_left_out(&mut text, left[i]);
        put_text(sink, text.as_slice())?;
        i += 1;
    }
    Ok(())
}

/// Puts the lines of nodes that are left out, and the notes on what else does not go out.
fn put_left_out<T: Sink>(sink: &mut T, left: &[LeftOut], found: Found) -> Result<(), DeviceFault>
    ensures { PutsTo T.Sink sink.old sink.new
        (clashing_lines left.now ++ remade_notes found) result }
{
    match put_lines(sink, left) {
        Ok(()) => put_found(sink, found),
        Err(fault) => Err(fault),
    }
}

/// Says both.
fn say_left_out<H: Host>(host: &mut H, left: &[LeftOut], found: Found)
    ensures { DoesFrom (H.history host.old) (H.history host.new)
        (says (Some (clashing_lines left.now ++ remade_notes found))) (Ok result) }
{
    let mut errors = host.errors();
    let _ = put_left_out(&mut errors, left, found);
    host.close_errors(errors);
}

/// Says what there is of them.
fn say_apart<H: Host>(host: &mut H, left: &[LeftOut], found: Found)
    ensures { DoesFrom (H.history host.old) (H.history host.new)
        (says (left_out_noted left.now found)) (Ok result) }
{
    if left.is_empty() {
        say_remade(host, found);
    } else {
        say_left_out(host, left, found);
    }
}

/// Tells on standard error which nodes were left out, and what was found in the image, or why none
/// was made; and how the program ends with it.
pub(crate) fn report_apart<H: Host>(host: &mut H, answer: Result<ApartDone, Fault>) -> Outcome
    ensures { DoesFrom (H.history host.old) (H.history host.new)
        (ends (seen_as apart_told answer)) (Ok result) }
{
    match answer {
        Ok(done) => {
            let left = done.left.as_slice();
            say_apart(host, left, done.found);
            Outcome::of(either(left.len() as u64, done.found.count()))
        }
        Err(fault) => report(host, Err(fault)),
    }
}
