//! `build` and `append`.
ghost use Rattle.std.specs.Prelude.{◌≡◌, None, Ok, Some, option_map};
ghost use Rattle.jcommand.specs.Parsed.{appending_view, target_view};
ghost use Rattle.jedge.specs.Acts.{DoesFrom, seen_as};
ghost use Rattle.jedge.specs.Commands.{reported};
ghost use Rattle.jedge.specs.Views.{viewed};
ghost use Rattle.jmakes.specs.Commands.{append_act, build_act, writes_listing};
ghost use Rattle.jmakes.specs.Keeping.{base_asked, base_of};
ghost use Rattle.jmakes.specs.Seen.{image_to_write, told_seen};
ghost use Rattle.jmakes.specs.Writing.{image_asked};

use crate::asked::{Base, ImageToWrite, base_of, image_of};
use crate::host::FileHost;
use crate::keeping::keep_base;
use crate::reporting::report_written;
use crate::texts::write_text;
use crate::written::Written;
use jbuild::HostFiles;
use jcommand::{Appending, Building, Outcome, Target};
use jedge::fault::Fault;
use jedge::reading::load;
use jedge::subject::{Subject, view};
use jnode::Order;
use jreads::files_host::FilesHost;

/// Writes the lines of a listing's text, of whose files none was read before.
fn write_listing<E: Order, H: FileHost + FilesHost>(
    host: &mut H,
    image: ImageToWrite<'_>,
    base: Option<&Subject>,
    text: &[u8],
) -> Result<Written, Fault>
    ensures { DoesFrom (H.history host.old) (H.history host.new)
        (writes_listing (image_to_write E.order image.entry)
        (option_map (λ subject. viewed subject.now) base.entry) text.now)
        (seen_as told_seen result) }
{
    let none = HostFiles::new(host.alloc());
    write_text::<E, H>(host, image, base, none, text)
}

/// `build`.
pub fn build<E: Order, H: FileHost + FilesHost>(
    host: &mut H,
    target: Target<&str>,
    listing: &str,
) -> Result<Written, Fault>
    ensures { DoesFrom (H.history host.old) (H.history host.new)
        (build_act (image_asked E.order (target_view target.entry)) listing.now)
        (seen_as told_seen result) }
{
    match load(host, listing) {
        Ok(text) => write_listing::<E, H>(host, image_of(target), None, text.as_slice()),
        Err(fault) => Err(fault),
    }
}

/// `append`.
pub fn append<E: Order, H: FileHost + FilesHost>(
    host: &mut H,
    target: Target<&str>,
    asked: Base<'_>,
    listing: &str,
) -> Result<Written, Fault>
    ensures { DoesFrom (H.history host.old) (H.history host.new)
        (append_act (image_asked E.order (target_view target.entry)) (base_asked asked.entry)
        listing.now)
        (seen_as told_seen result) }
{
    let geometry = target.options.geometry;
    let base = match view::<E, H>(host, geometry, asked.decompress, asked.image) {
        Ok(base) => base,
        Err(fault) => return Err(fault),
    };
    match keep_base(host, asked, target.output, &base) {
        Ok(()) => {}
        Err(fault) => return Err(fault),
    }
    match load(host, listing) {
        Ok(text) => write_listing::<E, H>(host, image_of(target), Some(&base), text.as_slice()),
        Err(fault) => Err(fault),
    }
}

/// `build` as the program runs it.
pub fn run_build<E: Order, H: FileHost + FilesHost>(host: &mut H, asked: Building<&str>) -> Outcome
    ensures { DoesFrom (H.history host.old) (H.history host.new)
        (reported (build_act (image_asked E.order (target_view asked.entry.target))
        asked.entry.listing.now)) (Ok result) }
{
    let answer = build::<E, H>(host, asked.target, asked.listing);
    report_written(host, answer)
}

/// `append` as the program runs it.
pub fn run_append<E: Order, H: FileHost + FilesHost>(
    host: &mut H,
    asked: Appending<&str>,
) -> Outcome
    ensures { DoesFrom (H.history host.old) (H.history host.new)
        (reported (append_act (image_asked E.order (target_view asked.entry.target))
        (base_of (appending_view asked.entry)) asked.entry.listing.now)) (Ok result) }
{
    let answer = append::<E, H>(host, asked.target, base_of(&asked), asked.listing);
    report_written(host, answer)
}
