//! The spare bytes that a dump shows are left out of it.
ghost use Rattle.std.specs.Prelude.{◌≡◌, Ok, Some};
ghost use Rattle.jedge.specs.Acts.{DoesFrom, says};
ghost use Rattle.jauto.specs.Leaving.{leaves_shown, leaving_act, pages_alone};
ghost use Rattle.jauto.specs.TakingText.{left_line};

use crate::lines::write_left;
use crate::looking::say_line;
use jedge::fault::Fault;
use jedge::host::Host;
use jedge::reading::load;
use jedge::spare::find_spare;
use jedge::streams_host::StreamsHost;
use jline::LineBuffer;
use jspare::{PageLayout, Region};

/// Says which spare bytes are left out.
fn say_left<H: Host>(host: &mut H, layout: PageLayout)
    ensures { DoesFrom (H.history host.old) (H.history host.new) (says (Some (left_line layout)))
        (Ok result) }
{
    let mut line = LineBuffer::new();
    write_left(&mut line, layout);
    say_line(host, line.as_slice());
}

/// All pages of a dump, without their spare bytes.
fn pages_alone(layout: PageLayout) -> Region
    ensures { result ≡ pages_alone layout }
{
    Region {
        layout: Some(layout),
        offset: 0,
        length: None,
    }
}

/// Leaves them out of the file of a name, if there are any.
fn leave_out<H: StreamsHost>(
    host: &mut H,
    name: &str,
    spare: Option<PageLayout>,
) -> Result<(), Fault>
    ensures { DoesFrom (H.history host.old) (H.history host.new) (leaves_shown name.now spare)
        result }
{
    match spare {
        Some(layout) => {
            say_left(host, layout);
            host.read_region(pages_alone(layout), &[name])
        }
        None => Ok(()),
    }
}

/// Reads the file of a name, and leaves the spare bytes out of it that it shows.
pub fn leave_found<H: StreamsHost>(host: &mut H, name: &str) -> Result<(), Fault>
    ensures { DoesFrom (H.history host.old) (H.history host.new) (leaving_act name.now) result }
{
    let dump = match load(host, name) {
        Ok(dump) => dump,
        Err(fault) => return Err(fault),
    };
    match find_spare(host.alloc(), dump.as_slice()) {
        Ok(spare) => leave_out(host, name, spare),
        Err(fault) => Err(fault),
    }
}
