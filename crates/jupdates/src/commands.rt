//! `update` and `build --compress`.
ghost use Rattle.std.specs.Prelude.{Ok};
ghost use Rattle.jcommand.specs.Parsed.{building_view, updating_view};
ghost use Rattle.jedge.specs.Acts.{DoesFrom, seen_as};
ghost use Rattle.jedge.specs.Commands.{reported};
ghost use Rattle.jedge.specs.Told.{found_told};
ghost use Rattle.jupdates.specs.Commands.{build_compressed_act, update_act};

use crate::asked::{device_built, device_of};
use crate::texts::update_listing;
use jcommand::{Building, Outcome, Updating};
use jedge::fault::Fault;
use jedge::found::Found;
use jedge::reading::load;
use jedge::reporting::report;
use jmakes::host::FileHost;
use jnode::Order;
use jreads::files_host::FilesHost;

/// `update`. The image is held in memory before the file is made, so the two may be one.
pub fn update<E: Order, H: FileHost + FilesHost>(
    host: &mut H,
    asked: Updating<&str>,
) -> Result<Found<'static>, Fault>
    ensures { DoesFrom (H.history host.old) (H.history host.new)
        (update_act E.order (updating_view asked.entry)) (seen_as found_told result) }
{
    let image = match load(host, asked.image) {
        Ok(image) => image,
        Err(fault) => return Err(fault),
    };
    match load(host, asked.listing) {
        Ok(text) => {
            let bytes = image.as_slice();
            let device = device_of(asked, bytes);
            update_listing::<E, H>(host, device, bytes, text.as_slice())
        }
        Err(fault) => Err(fault),
    }
}

/// `build --compress`.
pub fn build_compressed<E: Order, H: FileHost + FilesHost>(
    host: &mut H,
    asked: Building<&str>,
) -> Result<Found<'static>, Fault>
    ensures { DoesFrom (H.history host.old) (H.history host.new)
        (build_compressed_act E.order (building_view asked.entry)) (seen_as found_told result) }
{
    match load(host, asked.listing) {
        Ok(text) => {
            let device = device_built(asked.target);
            update_listing::<E, H>(host, device, &[], text.as_slice())
        }
        Err(fault) => Err(fault),
    }
}

/// `update` as the program runs it.
pub fn run_update<E: Order, H: FileHost + FilesHost>(host: &mut H, asked: Updating<&str>) -> Outcome
    ensures { DoesFrom (H.history host.old) (H.history host.new)
        (reported (update_act E.order (updating_view asked.entry))) (Ok result) }
{
    let answer = update::<E, H>(host, asked);
    report(host, answer)
}

/// `build --compress` as the program runs it.
pub fn run_build_compressed<E: Order, H: FileHost + FilesHost>(
    host: &mut H,
    asked: Building<&str>,
) -> Outcome
    ensures { DoesFrom (H.history host.old) (H.history host.new)
        (reported (build_compressed_act E.order (building_view asked.entry))) (Ok result) }
{
    let answer = build_compressed::<E, H>(host, asked);
    report(host, answer)
}
