//! What is told of operations that were all accepted.

ghost use Rattle.flashbase.specs.Sinks.{PutsTo};
ghost use Rattle.jdevice.specs.Line.{updated_line};

use flashbase::{DeviceFault, Sink};
use jline::{LineBuffer, put_text};

/// Puts the line that tells of operations that were all accepted: how many, how many nodes they
/// have, and how many bytes went out for them.
pub fn put_updated<T: Sink>(
    ops: usize,
    nodes: usize,
    bytes: usize,
    sink: &mut T,
) -> Result<(), DeviceFault>
    ensures { PutsTo T.Sink sink.old sink.new (updated_line ops nodes bytes) result }
{
    let mut line = LineBuffer::new();
    line.push_text(b"accepted ");
    line.push_decimal(ops as u64);
    line.push_text(b" nodes ");
    line.push_decimal(nodes as u64);
    line.push_text(b" bytes ");
    line.push_decimal(bytes as u64);
    line.push_text(b"\n");
    put_text(sink, line.as_slice())
}
