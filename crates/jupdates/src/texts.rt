//! A listing's lines are run on an image, which goes to a file with what they make.
ghost use Rattle.std.specs.Prelude.{◌≡◌};
ghost use Rattle.jbuild.specs.HostFiles.{part_contents};
ghost use Rattle.jedge.specs.Acts.{DoesFrom, seen_as};
ghost use Rattle.jedge.specs.Told.{found_told};
ghost use Rattle.jupdates.specs.Asked.{device_to_write};
ghost use Rattle.jupdates.specs.Commands.{updates_lines, updates_listing, updates_text};

use crate::asked::DeviceToWrite;
use crate::updated::update_mounted;
use jbuild::HostFiles;
use jedge::fault::Fault;
use jedge::found::Found;
use jedge::mounting::mounted_as;
use jlisting::Line;
use jmakes::host::FileHost;
use jmakes::numbered::numbered;
use jmakes::texts::read_lines;
use jnode::Order;
use jreads::files_host::FilesHost;
use jreads::named::load_named;
use jreport::others_if_none;
use std::alloc::Global;

/// Runs the lines of a listing on an image, with the bytes of the files that they name.
fn update_lines<'b, 'a: 'b, E: Order, H: FileHost>(
    host: &mut H,
    device: DeviceToWrite<'_>,
    image: &[u8],
    lines: Vec<Line<'a>>,
    files: &'b HostFiles,
) -> Result<Found<'static>, Fault>
    ensures { DoesFrom (H.history host.old) (H.history host.new)
        (updates_lines E.order (device_to_write device.entry) image.now (part_contents files.now)
        lines.entry.items) (seen_as found_told result) }
{
    let of = match numbered::<E>(host.alloc(), lines, files) {
        Ok(of) => of,
        Err(fault) => return Err(fault),
    };
    let geometry = device.on.flash.geometry;
    let others = others_if_none::<E>(image, geometry);
    let mut contents = Vec::new(host.alloc());
    match mounted_as::<E>(host.alloc(), image, geometry, true, &mut contents) {
        Ok(mounted) => { update_mounted::<E, H>(host, device, &mounted, &of, others) }
        Err(fault) => Err(fault),
    }
}

/// Runs the lines of a listing's text. `before` has the files that were read before.
pub fn update_text<E: Order, H: FileHost + FilesHost>(
    host: &mut H,
    device: DeviceToWrite<'_>,
    image: &[u8],
    before: HostFiles,
    text: &[u8],
) -> Result<Found<'static>, Fault>
    ensures { DoesFrom (H.history host.old) (H.history host.new)
        (updates_text E.order (device_to_write device.entry) image.now before text.now)
        (seen_as found_told result) }
{
    let lines = match read_lines(host.alloc(), text) {
        Ok(lines) => lines,
        Err(fault) => return Err(fault),
    };
    match load_named(host, &lines, before) {
        Ok(files) => update_lines::<E, H>(host, device, image, lines, &files),
        Err(fault) => Err(fault),
    }
}

/// The same where no file was read before.
pub(crate) fn update_listing<E: Order, H: FileHost + FilesHost>(
    host: &mut H,
    device: DeviceToWrite<'_>,
    image: &[u8],
    text: &[u8],
) -> Result<Found<'static>, Fault>
    ensures { DoesFrom (H.history host.old) (H.history host.new)
        (updates_listing E.order (device_to_write device.entry) image.now text.now)
        (seen_as found_told result) }
{
    let none = HostFiles::new(host.alloc());
    update_text::<E, H>(host, device, image, none, text)
}
