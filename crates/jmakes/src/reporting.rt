//! What standard error is told of an image that was written, and how the program ends.
ghost use Rattle.std.specs.Prelude.{◌++◌, Ok, Some};
ghost use Rattle.flashbase.specs.Sinks.{PutsTo};
ghost use Rattle.jedge.specs.Acts.{DoesFrom, says, seen_as};
ghost use Rattle.jedge.specs.Commands.{ends};
ghost use Rattle.jmakes.specs.Notes.{both_said, text_or_none, weak_notes_said};
ghost use Rattle.jmakes.specs.Seen.{note_seen, notes_seen, told_seen};

use crate::base_note::{BaseNote, attributes_lost, put_base, say_base};
use crate::notes::Notes;
use crate::written::Written;
use flashbase::{DeviceFault, Sink, put_all};
use jcommand::Outcome;
use jedge::damage::either;
use jedge::fault::Fault;
use jedge::host::Host;
use jedge::reporting::report;

/// Puts a text.
fn put_text<T: Sink>(text: &[u8], sink: &mut T) -> Result<(), DeviceFault>
    ensures { PutsTo T.Sink sink.old sink.new text.now result }
{
    match put_all(sink, text) {
        Ok(()) => Ok(()),
        Err(_) => Err(DeviceFault),
    }
}

/// Puts what is noted of a base, if there is anything, and a text behind it.
fn put_both<T: Sink>(note: Option<BaseNote>, text: &[u8], sink: &mut T) -> Result<(), DeviceFault>
    ensures { PutsTo T.Sink sink.old sink.new
        (text_or_none (note_seen note).noted ++ text.now) result }
{
    put_base(note, sink)?;
    put_text(text, sink)
}

/// Says them.
fn say_both<H: Host>(host: &mut H, note: Option<BaseNote>, text: &[u8])
    ensures { DoesFrom (H.history host.old) (H.history host.new)
        (says (Some (text_or_none (note_seen note).noted ++ text.now))) (Ok result) }
{
    let mut errors = host.errors();
    let _ = put_both(note, text, &mut errors);
    host.close_errors(errors);
}

/// Says what is noted of a base, if there is anything, and behind it the notes on weak nodes.
fn say_written<H: Host>(host: &mut H, note: Option<BaseNote>, weak: &Notes)
    ensures { DoesFrom (H.history host.old) (H.history host.new)
        (says (both_said (note_seen note).noted (weak_notes_said (notes_seen weak.now))))
        (Ok result) }
{
    if weak.weak == 0 {
        say_base(host, note);
    } else {
        say_both(host, note, &weak.text);
    }
}

/// Tells an answer on standard error, and how the program ends with it.
pub fn report_written<H: Host>(host: &mut H, answer: Result<Written, Fault>) -> Outcome
    ensures { DoesFrom (H.history host.old) (H.history host.new)
        (ends (seen_as told_seen answer)) (Ok result) }
{
    match answer {
        Ok(written) => {
            say_written(host, written.note, &written.weak);
            Outcome::of(either(written.weak.weak, attributes_lost(written.note)))
        }
        Err(fault) => report(host, Err(fault)),
    }
}
