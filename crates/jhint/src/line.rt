//! The note that names the options which an image shows.
ghost use Rattle.std.specs.Prelude.{◌≡◌, ◌≤◌, length};
ghost use Rattle.flashbase.specs.Sinks.{PutsTo};
ghost use Rattle.jinfo.specs.InfoText.{order_name};
ghost use Rattle.jhint.specs.Hints.{hint_line, hint_lines};

use crate::hint::Hint;
use flashbase::{DeviceFault, Sink};
use jline::{LineBuffer, put_text};
use jnode::Endian;

fn order_name(order: Endian) -> &'static [u8]
    ensures name { result.now ≡ order_name order }
    ensures short { length result.now ≤ 6 }
{
    match order {
        Endian::Little => b"little",
        Endian::Big => b"big",
    }
}

#[tactic(auto, unfolding(crate::specs::Hints::hint_line))]
fn write_hint(line: &mut LineBuffer, hint: Hint)
    ensures { line.new ≡ hint_line hint }
{
    line.clear();
    line.push_text(b"jffs2_image: note: this looks like --endian ");
    line.push_text(order_name(hint.order));
    line.push_text(b" --block ");
    line.push_decimal(u64::from(hint.block));
    line.push_text(b" (or --auto)\n");
}

/// Puts the note that names the options, as it is on standard error; nothing if there is no hint.
///
/// # Errors
/// The sink failed; a beginning of the note went out.
pub fn put_hint<T: Sink>(hint: Option<Hint>, sink: &mut T) -> Result<(), DeviceFault>
    ensures { PutsTo T.Sink sink.old sink.new (hint_lines hint) result }
{
    match hint {
        Some(hint) => {
            let mut line = LineBuffer::new();
            write_hint(&mut line, hint);
            put_text(sink, line.as_slice())
        }
        None => Ok(()),
    }
}
