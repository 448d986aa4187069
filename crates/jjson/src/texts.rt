//! Texts that go out one after another.
ghost use Rattle.std.specs.List.{flat_map};
ghost use Rattle.flashbase.specs.Sinks.{PutsTo};

use flashbase::{DeviceFault, Sink};
use jline::put_text;

/// Puts texts, one after another.
pub(crate) fn put_texts<T: Sink>(sink: &mut T, texts: &[&[u8]]) -> Result<(), DeviceFault>
    ensures { PutsTo T.Sink sink.old sink.new (flat_map (λ text. text.now) texts.now) result }
{
    for text in texts {
        put_text(sink, text)?;
    }
    Ok(())
}
