//! What is told of operations that were all accepted.

ghost use Rattle.std.specs.Prelude.{◌≡◌, ◌+◌};
ghost use Rattle.flashbase.specs.Bytes.{pad4_of};
ghost use Rattle.flashbase.specs.Sinks.{PutsTo};
ghost use Rattle.jbuild.specs.Accepted.{accepted_line, end_of_places};

use flashbase::{DeviceFault, Sink};
use jline::{LineBuffer, put_text};
use jlog::Place;

/// Where a node ends, with its padding.
#[tactic(auto, unfolding(flashbase::specs::Bytes::pad4_of))]
fn end_of_node(addr: u32, totlen: u32) -> u64
    ensures { result ≡ pad4_of (addr + totlen) }
{
    (u64::from(addr) + u64::from(totlen) + 3) / 4 * 4
}

/// Where what was written from an address on ends.
fn end_of(from: u32, places: &[Place]) -> u64
    ensures { result ≡ end_of_places from places.now }
{
    match places.last() {
        Some(last) => end_of_node(last.addr, last.totlen),
        None => u64::from(from),
    }
}

/// Puts the line that tells of operations that were all accepted: how many, how many nodes they
/// have, and how many bytes went out for them from the address `from` on.
pub fn put_accepted<T: Sink>(
    from: u32,
    ops: usize,
    places: &[Place],
    sink: &mut T,
) -> Result<(), DeviceFault>
    ensures { PutsTo T.Sink sink.old sink.new (accepted_line from ops places.now) result }
{
    let mut line = LineBuffer::new();
    line.push_text(b"accepted ");
    line.push_decimal(ops as u64);
    line.push_text(b" nodes ");
    line.push_decimal(places.len() as u64);
    line.push_text(b" bytes ");
    line.push_decimal(end_of(from, places).saturating_sub(u64::from(from)));
    line.push_text(b"\n");
    put_text(sink, line.as_slice())
}
