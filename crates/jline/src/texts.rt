//! Texts that go out, and a fault that says no more than that the sink failed.

ghost use Rattle.flashbase.specs.Sinks.{PutsTo};

use flashbase::{DeviceFault, PutFault, Sink, put_all};

/// Puts a text.
pub fn put_text<T: Sink>(sink: &mut T, text: &[u8]) -> Result<(), DeviceFault>
    ensures puts { PutsTo T.Sink sink.old sink.new text.now result }
{
    match put_all(sink, text) {
        Ok(()) => Ok(()),
        Err(PutFault { .. }) => Err(DeviceFault),
    }
}
