//! The image is read, and options are taken of it.
ghost use Rattle.std.specs.Prelude.{◌≡◌, Ok, Some, option_map};
ghost use Rattle.jinfo.specs.Containers.{container_line, container_of};
ghost use Rattle.jedge.specs.Acts.{DoesFrom, says};
ghost use Rattle.jedge.specs.Told.{note_text};
ghost use Rattle.jauto.specs.Looking.{options_act, takes_options};
ghost use Rattle.jauto.specs.TakingText.{taken_line, unclear_line};

use crate::lines::{write_taken, write_unclear};
use crate::taking::{Taking, taking_of};
use jcommand::Options;
use jedge::fault::Fault;
use jedge::found::Note;
use jedge::host::Host;
use jedge::reading::load;
use jedge::reporting::say_noted;
use jinfo::{SizeRange, container_of, info_of};
use jline::{LineBuffer, put_text};
use jmount::MountFault;
use jnode::Endian;
use jreport::ProgramFault;

/// Says a line on standard error.
pub(crate) fn say_line<H: Host>(host: &mut H, line: &[u8])
    ensures { DoesFrom (H.history host.old) (H.history host.new) (says (Some line.now))
        (Ok result) }
{
    let mut errors = host.errors();
    let _ = put_text(&mut errors, line);
    host.close_errors(errors);
}

/// Says what is taken.
fn say_taken<H: Host>(host: &mut H, options: Options)
    ensures { DoesFrom (H.history host.old) (H.history host.new)
        (says (Some (taken_line options))) (Ok result) }
{
    let mut line = LineBuffer::new();
    write_taken(&mut line, options);
    say_line(host, line.as_slice());
}

/// Says that the size of blocks has to be given.
fn say_unclear<H: Host>(host: &mut H, order: Endian, sizes: Option<SizeRange>)
    ensures { DoesFrom (H.history host.old) (H.history host.new)
        (says (Some (unclear_line order sizes))) (Ok result) }
{
    let mut line = LineBuffer::new();
    write_unclear(&mut line, order, sizes);
    say_line(host, line.as_slice());
}

/// The note on what a file begins as.
fn container_noted(image: &[u8]) -> Option<Note<'static>>
    ensures { option_map note_text result ≡ option_map container_line (container_of image.now) }
{
    match container_of(image) {
        Some(container) => Some(Note::Container(container)),
        None => None,
    }
}

/// Says what is taken of an image, and answers it.
fn take<H: Host>(host: &mut H, image: &[u8], taking: Taking) -> Result<Options, Fault>
    ensures { DoesFrom (H.history host.old) (H.history host.new) (takes_options image.now taking)
        result }
{
    match taking {
        Taking::Nothing => {
            say_noted(host, container_noted(image));
            Err(Fault::NoNodes {
                name: None,
                others: 0,
            })
        }
        Taking::Unclear { order, sizes } => {
            say_unclear(host, order, sizes);
            Err(Fault::Refused(ProgramFault::Mount(MountFault::BlockSize)))
        }
        Taking::Taken(options) => {
            say_taken(host, options);
            Ok(options)
        }
    }
}

/// Reads the image of a name, and takes the options of it, for a command that writes an image or
/// does not.
pub fn look<H: Host>(host: &mut H, name: &str, writes: bool) -> Result<Options, Fault>
    ensures { DoesFrom (H.history host.old) (H.history host.new) (options_act writes name.now)
        result }
{
    let image = match load(host, name) {
        Ok(image) => image,
        Err(fault) => return Err(fault),
    };
    let taking = taking_of(&info_of(image.as_slice()), writes);
    take(host, image.as_slice(), taking)
}
