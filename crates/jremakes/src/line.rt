//! The line on an image that was made.
ghost use Rattle.std.specs.Prelude.{◌≡◌, [], IfSome, Some};
ghost use Rattle.flashbase.specs.Sinks.{PutsTo, change_of};
ghost use Rattle.jreport.specs.ConvertedLine.{compression_line, decompressed_line};
ghost use Rattle.jedge.specs.Acts.{DoesFrom, PutsBy, prints_put, seen_as};
ghost use Rattle.jedge.specs.Told.{Told};
ghost use Rattle.jremakes.specs.Compacting.{compacted_line};
ghost use Rattle.jremakes.specs.Putting.{TellsLine};

use flashbase::{DeviceFault, Sink};
use jcollect::Collected;
use jconvert::Converted;
use jedge::fault::Fault;
use jedge::found::finished;
use jedge::host::Host;
use jline::{LineBuffer, put_text};
use jreport::{put_compressed, put_decompressed};

/// Puts the line on an image that was decompressed.
fn put_converted<T: Sink>(told: Converted, sink: &mut T) -> Result<(), Fault>
    ensures { (answer : Told)
        → PutsBy (TellsLine (decompressed_line told.changed told.nodes told.bytes) answer)
        (change_of T.Sink sink.old sink.new) (seen_as (λ _. answer) result) }
{
    match put_decompressed(told.changed, told.nodes, told.bytes, sink) {
        Ok(()) => Ok(()),
        Err(DeviceFault) => Err(Fault::Output),
    }
}

/// Prints it.
pub(crate) fn print_converted<H: Host>(
    host: &mut H,
    out: H::Output,
    told: Converted,
) -> Result<(), Fault>
    requires sound { H.Output.failures out ≡ 0 }
    requires empty { IfSome (H.history host.old) (λ _. H.Output.taken out ≡ Some []) }
    ensures { (answer : Told) → DoesFrom (H.history host.old) (H.history host.new)
        (prints_put (TellsLine (decompressed_line told.changed told.nodes told.bytes) answer))
        (seen_as (λ _. answer) result) }
{
    let mut out = out;
    let put = put_converted(told, &mut out);
    let closed = host.close(out);
    finished(put, closed)
}

/// Puts the line on an image that was compressed.
fn put_packed<T: Sink>(told: Converted, sink: &mut T) -> Result<(), Fault>
    ensures { (answer : Told)
        → PutsBy (TellsLine (compression_line told.changed told.nodes told.bytes) answer)
        (change_of T.Sink sink.old sink.new) (seen_as (λ _. answer) result) }
{
    match put_compressed(told.changed, told.nodes, told.bytes, sink) {
        Ok(()) => Ok(()),
        Err(DeviceFault) => Err(Fault::Output),
    }
}

/// Prints it.
pub(crate) fn print_packed<H: Host>(
    host: &mut H,
    out: H::Output,
    told: Converted,
) -> Result<(), Fault>
    requires sound { H.Output.failures out ≡ 0 }
    requires empty { IfSome (H.history host.old) (λ _. H.Output.taken out ≡ Some []) }
    ensures { (answer : Told) → DoesFrom (H.history host.old) (H.history host.new)
        (prints_put (TellsLine (compression_line told.changed told.nodes told.bytes) answer))
        (seen_as (λ _. answer) result) }
{
    let mut out = out;
    let put = put_packed(told, &mut out);
    let closed = host.close(out);
    finished(put, closed)
}

/// Writes the line on an image of the nodes that matter over what a buffer has.
fn write_compacted(line: &mut LineBuffer, told: Collected)
    ensures { line.new ≡ compacted_line told.kept told.nodes told.bytes }
{
    line.clear();
    line.push_text(b"compacted ");
    line.push_decimal(told.kept as u64);
    line.push_text(b" of ");
    line.push_decimal(told.nodes as u64);
    line.push_text(b" nodes bytes ");
    line.push_decimal(u64::from(told.bytes));
    line.push_text(b"\n");
}

/// Puts it.
fn put_line<T: Sink>(told: Collected, sink: &mut T) -> Result<(), DeviceFault>
    ensures { PutsTo T.Sink sink.old sink.new (compacted_line told.kept told.nodes told.bytes)
        result }
{
    let mut line = LineBuffer::new();
    write_compacted(&mut line, told);
    put_text(sink, line.as_slice())
}

/// Puts the line on an image of the nodes that matter.
fn put_compacted<T: Sink>(told: Collected, sink: &mut T) -> Result<(), Fault>
    ensures { (answer : Told)
        → PutsBy (TellsLine (compacted_line told.kept told.nodes told.bytes) answer)
        (change_of T.Sink sink.old sink.new) (seen_as (λ _. answer) result) }
{
    match put_line(told, sink) {
        Ok(()) => Ok(()),
        Err(DeviceFault) => Err(Fault::Output),
    }
}

/// Prints it.
pub(crate) fn print_compacted<H: Host>(
    host: &mut H,
    out: H::Output,
    told: Collected,
) -> Result<(), Fault>
    requires sound { H.Output.failures out ≡ 0 }
    requires empty { IfSome (H.history host.old) (λ _. H.Output.taken out ≡ Some []) }
    ensures { (answer : Told) → DoesFrom (H.history host.old) (H.history host.new)
        (prints_put (TellsLine (compacted_line told.kept told.nodes told.bytes) answer))
        (seen_as (λ _. answer) result) }
{
    let mut out = out;
    let put = put_compacted(told, &mut out);
    let closed = host.close(out);
    finished(put, closed)
}
