//! The line on what was done.
ghost use Rattle.std.specs.Prelude.{◌≡◌, [], IfSome, Some, length};
ghost use Rattle.flashbase.specs.Sinks.{change_of};
ghost use Rattle.jdevice.specs.Line.{updated_line};
ghost use Rattle.jedge.specs.Acts.{DoesFrom, PutsBy, seen_as};
ghost use Rattle.jedge.specs.Told.{found_told};
ghost use Rattle.jmakes.specs.Seen.{done_seen};
ghost use Rattle.jmakes.specs.Writing.{WholeLine};
ghost use Rattle.jupdates.specs.Updating.{prints_updated};

use flashbase::Sink;
use jdevice::put_updated;
use jedge::fault::Fault;
use jedge::found::{Found, finished};
use jedge::host::Host;
use jmakes::ending::DoneOps;

/// Puts it, and answers what is found.
fn put_line<T: Sink>(
    sink: &mut T,
    done: &DoneOps,
    bytes: usize,
    found: Found<'static>,
) -> Result<Found<'static>, Fault>
    ensures { PutsBy (WholeLine
        (updated_line (done_seen done.now).accepted (length (done_seen done.now).places) bytes)
        (found_told found.entry)) (change_of T.Sink sink.old sink.new) (seen_as found_told result) }
{
    match put_updated(done.accepted, done.places.len(), bytes, sink) {
        Ok(()) => Ok(found),
        Err(_) => Err(Fault::Output),
    }
}

/// Prints it.
pub(crate) fn print_updated<H: Host>(
    host: &mut H,
    out: H::Output,
    done: &DoneOps,
    bytes: usize,
    found: Found<'static>,
) -> Result<Found<'static>, Fault>
    requires sound { H.Output.failures out ≡ 0 }
    requires empty { IfSome (H.history host.old) (λ _. H.Output.taken out ≡ Some []) }
    ensures { DoesFrom (H.history host.old) (H.history host.new)
        (prints_updated bytes (found_told found.entry) (done_seen done.now))
        (seen_as found_told result) }
{
    let mut out = out;
    let put = put_line(&mut out, done, bytes, found);
    let closed = host.close(out);
    finished(put, closed)
}
