//! The line on the layout of a dump.
ghost use Rattle.flashbase.specs.Sinks.{PutsTo};
ghost use Rattle.std.specs.Prelude.{◌≡◌};
ghost use Rattle.jspare.specs.Showing.{spare_line, spare_lines};

use crate::layout::PageLayout;
use flashbase::{DeviceFault, Sink};
use jline::{LineBuffer, put_text};

#[tactic(auto, unfolding(crate::specs::Showing::spare_line))]
fn write_spare(line: &mut LineBuffer, layout: PageLayout)
    ensures { line.new ≡ spare_line layout }
{
    line.clear();
    line.push_text(b"spare ");
    line.push_decimal(u64::from(layout.spare));
    line.push_text(b" after each ");
    line.push_decimal(u64::from(layout.page));
    line.push_text(b"\n");
}

/// Puts the line on a layout, as `spare 64 after each 2048`; nothing if there is none.
///
/// # Errors
/// The sink failed; a beginning of the line went out.
pub fn put_spare<T: Sink>(layout: Option<PageLayout>, sink: &mut T) -> Result<(), DeviceFault>
    ensures { PutsTo T.Sink sink.old sink.new (spare_lines layout) result }
{
    match layout {
        Some(layout) => {
            let mut line = LineBuffer::new();
            write_spare(&mut line, layout);
            put_text(sink, line.as_slice())
        }
        None => Ok(()),
    }
}
