//! The text of a listing is written: its lines are read, and the files that they name.
ghost use Rattle.std.specs.Prelude.{option_map};
ghost use Rattle.jedge.specs.Acts.{DoesFrom, seen_as};
ghost use Rattle.jedge.specs.Views.{viewed};
ghost use Rattle.jmakes.specs.Commands.{writes_text};
ghost use Rattle.jmakes.specs.Seen.{image_to_write, told_seen};
ghost use Rattle.jmakes.specs.Writing.{ReadsListingLines};

use crate::asked::ImageToWrite;
use crate::host::FileHost;
use crate::written::{Written, write_lines};
use jbuild::HostFiles;
use jedge::fault::Fault;
use jedge::subject::Subject;
use jlisting::{Line, ListingFault, listing};
use jnode::Order;
use jreads::files_host::FilesHost;
use jreads::named::load_named;
use jreport::ProgramFault;
use std::alloc::Global;

/// The lines of a listing.
pub fn read_lines<'a>(alloc: Global, text: &'a [u8]) -> Result<Vec<Line<'a>>, Fault>
    ensures { ReadsListingLines text.entry.now (seen_as (λ lines. lines.items) result) }
{
    match listing(alloc, text) {
        Ok(lines) => Ok(lines),
        Err(ListingFault::Line(bad)) => Err(Fault::Refused(ProgramFault::Listing(bad))),
        Err(ListingFault::OutOfMemory) => Err(Fault::OutOfMemory),
    }
}

/// Writes the lines of a listing's text on a base, or on an empty one. `before` has the files that
/// were read before.
pub fn write_text<E: Order, H: FileHost + FilesHost>(
    host: &mut H,
    image: ImageToWrite<'_>,
    base: Option<&Subject>,
    before: HostFiles,
    text: &[u8],
) -> Result<Written, Fault>
    ensures { DoesFrom (H.history host.old) (H.history host.new)
        (writes_text (image_to_write E.order image.entry)
        (option_map (λ subject. viewed subject.now) base.entry) before text.now)
        (seen_as told_seen result) }
{
    let lines = match read_lines(host.alloc(), text) {
        Ok(lines) => lines,
        Err(fault) => return Err(fault),
    };
    match load_named(host, &lines, before) {
        Ok(files) => write_lines::<E, H>(host, image, base, lines, &files),
        Err(fault) => Err(fault),
    }
}
