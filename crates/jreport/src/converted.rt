//! The line on an image whose data were decompressed, or compressed.

ghost use Rattle.std.specs.Prelude.{◌≡◌};
ghost use Rattle.flashbase.specs.Sinks.{PutsTo};
ghost use Rattle.jreport.specs.ConvertedLine.{compression_line, decompressed_line};

use flashbase::{DeviceFault, Sink};
use jline::{LineBuffer, put_text};

/// The line that tells so.
fn write_decompressed(line: &mut LineBuffer, changed: u64, nodes: u64, bytes: u64)
    ensures { line.new ≡ decompressed_line changed nodes bytes }
{
    line.clear();
    line.push_text(b"decompressed ");
    line.push_decimal(changed);
    line.push_text(b" nodes ");
    line.push_decimal(nodes);
    line.push_text(b" bytes ");
    line.push_decimal(bytes);
    line.push_text(b"\n");
}

/// Puts the line that tells how many nodes were decompressed, and how many nodes and bytes went
/// out.
pub fn put_decompressed<T: Sink>(
    changed: u64,
    nodes: u64,
    bytes: u64,
    sink: &mut T,
) -> Result<(), DeviceFault>
    ensures { PutsTo T.Sink sink.old sink.new (decompressed_line changed nodes bytes) result }
{
    let mut line = LineBuffer::new();
    write_decompressed(&mut line, changed, nodes, bytes);
    put_text(sink, line.as_slice())
}

/// The line of the other way.
fn write_compressed(line: &mut LineBuffer, changed: u64, nodes: u64, bytes: u64)
    ensures { line.new ≡ compression_line changed nodes bytes }
{
    line.clear();
    line.push_text(b"compressed ");
    line.push_decimal(changed);
    line.push_text(b" nodes ");
    line.push_decimal(nodes);
    line.push_text(b" bytes ");
    line.push_decimal(bytes);
    line.push_text(b"\n");
}

/// Puts the line that tells how many nodes are compressed, and how many nodes and bytes went out.
pub fn put_compressed<T: Sink>(
    changed: u64,
    nodes: u64,
    bytes: u64,
    sink: &mut T,
) -> Result<(), DeviceFault>
    ensures { PutsTo T.Sink sink.old sink.new (compression_line changed nodes bytes) result }
{
    let mut line = LineBuffer::new();
    write_compressed(&mut line, changed, nodes, bytes);
    put_text(sink, line.as_slice())
}
