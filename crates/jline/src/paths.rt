//! Paths that go out, from their names.

ghost use Rattle.std.specs.Prelude.{◌≡◌, map};
ghost use Rattle.std.specs.List.{flat_map};
ghost use Rattle.flashbase.specs.Sinks.{PutsTo};
ghost use Rattle.jline.specs.Paths.{name_shown, path_shown};

use crate::escapes::put_escaped;
use crate::texts::put_text;
use flashbase::{DeviceFault, Sink};

/// Puts a name of a path.
fn put_name<T: Sink>(sink: &mut T, name: &[u8]) -> Result<(), DeviceFault>
    ensures { PutsTo T.Sink sink.old sink.new (name_shown name.now) result }
{
    put_text(sink, b"/")?;
    put_escaped(sink, name)
}

fn put_names<T: Sink>(sink: &mut T, path: &[&[u8]]) -> Result<(), DeviceFault>
    ensures { PutsTo T.Sink sink.old sink.new
        (flat_map (λ name. name_shown name.now) path.now) result }
{
    for name in path {
        put_name(sink, name)?;
    }
    Ok(())
}

/// Puts a path, from its names: a slash before each, and the names escaped; of no names a slash
/// alone. Takes no memory.
pub fn put_path<T: Sink>(sink: &mut T, path: &[&[u8]]) -> Result<(), DeviceFault>
    ensures { PutsTo T.Sink sink.old sink.new
        (path_shown (map (λ name. name.now) path.now)) result }
{
    if path.is_empty() {
        return put_text(sink, b"/");
    }
    put_names(sink, path)
}
