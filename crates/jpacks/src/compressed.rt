//! The folder is read whole, and its listing is run on an image without a byte: nodes go out
//! compressed where that is shorter.
ghost use Rattle.std.specs.Prelude.{◌≡◌, []};
ghost use Rattle.jcommand.specs.Parsed.{packing_view};
ghost use Rattle.jedge.specs.Acts.{DoesFrom, seen_as};
ghost use Rattle.jedge.specs.Told.{found_told};
ghost use Rattle.jupdates.specs.Asked.{device_to_write};
ghost use Rattle.jupdates.specs.Commands.{updates_text};
ghost use Rattle.jpacks.specs.Packing.{device_of_packing, pack_compressed_act, packed_told, writes_listed};

use crate::packing::image_of;
use jcommand::Packing;
use jedge::damage::either;
use jedge::fault::Fault;
use jedge::found::Found;
use jfolders::host::FolderHost;
use jfolders::keeping::{Listed, read_whole};
use jfolders::reading::settings_of;
use jmakes::host::FileHost;
use jnode::Order;
use jreads::files_host::FilesHost;
use jupdates::asked::{DeviceToWrite, device_packed};
use jupdates::texts::update_text;

/// The flash and the file that are asked for.
fn device_of<'a>(asked: Packing<&'a str>) -> DeviceToWrite<'a>
    ensures { device_to_write result ≡ device_of_packing (packing_view asked.entry) }
{
    let image = image_of(asked);
    device_packed(image.flash, image.file)
}

/// What is found where so many objects were left out.
pub fn found_with(left_out: u64, found: Found<'static>) -> Found<'static>
    ensures { found_told result ≡ packed_told left_out (found_told found.entry) }
{
    Found {
        counted: either(left_out, found.counted),
        note: found.note,
    }
}

/// Writes the listing of a folder that was read.
fn write_compressed<E: Order, H: FolderHost + FilesHost + FileHost>(
    host: &mut H,
    device: DeviceToWrite<'_>,
    listed: Listed,
) -> Result<Found<'static>, Fault>
    ensures { DoesFrom (H.history host.old) (H.history host.new)
        (writes_listed (updates_text E.order (device_to_write device.entry) []) listed)
        (seen_as found_told result) }
{
    let Listed {
        text,
        left_out,
        files,
    } = listed;
    let before = files.into_parts();
    match update_text::<E, H>(host, device, &[], before, text.as_slice()) {
        Ok(found) => Ok(found_with(left_out, found)),
        Err(fault) => Err(fault),
    }
}

/// `pack --compress`.
pub fn pack_compressed<E: Order, H: FolderHost + FilesHost + FileHost>(
    host: &mut H,
    asked: Packing<&str>,
) -> Result<Found<'static>, Fault>
    ensures { DoesFrom (H.history host.old) (H.history host.new)
        (pack_compressed_act E.order (packing_view asked.entry)) (seen_as found_told result) }
{
    let settings = settings_of(asked.owner, asked.time);
    match read_whole(host, asked.folder, asked.quiet, &settings) {
        Ok(listed) => write_compressed::<E, H>(host, device_of(asked), listed),
        Err(fault) => Err(fault),
    }
}
