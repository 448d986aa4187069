//! Words that ask for no command, and what is said of them.
ghost use Rattle.std.specs.Prelude.{Ok};
ghost use Rattle.flashbase.specs.Sinks.{PutsTo, change_of};
ghost use Rattle.jedge.specs.Acts.{DoesFrom, PutsBy, Whole, prints, seen_as};
ghost use Rattle.jedge.specs.Told.{found_told};
ghost use Rattle.jffs2_image.specs.Running.{nothing_told, refuses, refused_act};

use flashbase::{DeviceFault, Sink, put_all};
use jcommand::{Outcome, RequestFault};
use jedge::fault::Fault;
use jedge::found::{Found, finished};
use jedge::host::Host;
use jedge::reporting::report;

/// Puts a text.
fn put_text<T: Sink>(text: &str, sink: &mut T) -> Result<(), DeviceFault>
    ensures { PutsTo T.Sink sink.old sink.new text.now result }
{
    match put_all(sink, text.as_bytes()) {
        Ok(()) => Ok(()),
        Err(_) => Err(DeviceFault),
    }
}

/// Puts a text that answers the command line.
fn put_answer<T: Sink>(text: &str, sink: &mut T) -> Result<Found<'static>, Fault>
    ensures { PutsBy (Whole text.now nothing_told) (change_of T.Sink sink.old sink.new)
        (seen_as found_told result) }
{
    match put_text(text, sink) {
        Ok(()) => Ok(Found {
            counted: 0,
            note: None,
        }),
        Err(DeviceFault) => Err(Fault::Output),
    }
}

/// Prints it.
fn print_answer<H: Host>(host: &mut H, text: &str) -> Result<Found<'static>, Fault>
    ensures { DoesFrom (H.history host.old) (H.history host.new)
        (prints (Whole text.now nothing_told)) (seen_as found_told result) }
{
    let mut out = match host.output() {
        Ok(out) => out,
        Err(fault) => return Err(fault),
    };
    let answer = put_answer(text, &mut out);
    let closed = host.close(out);
    finished(answer, closed)
}

/// Says what is wrong with the words.
pub fn say_usage<H: Host>(host: &mut H, text: &str) -> Outcome
    ensures { DoesFrom (H.history host.old) (H.history host.new) (refuses text.now) (Ok result) }
{
    let mut errors = host.errors();
    let _ = put_text(text, &mut errors);
    host.close_errors(errors);
    Outcome::Usage
}

/// Answers words that ask for no command.
pub fn answer_refused<H: Host>(host: &mut H, fault: RequestFault) -> Outcome
    ensures { DoesFrom (H.history host.old) (H.history host.new) (refused_act fault)
        (Ok result) }
{
    match fault {
        RequestFault::Help { text } => {
            let answer = print_answer(host, text.as_str());
            report(host, answer)
        }
        RequestFault::Usage { text } => say_usage(host, text.as_str()),
        RequestFault::OutOfMemory => report(host, Err(Fault::OutOfMemory)),
    }
}
