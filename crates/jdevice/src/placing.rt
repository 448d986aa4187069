//! An image with what a run did, put to a sink.

ghost use Rattle.std.specs.Prelude.{◌≡◌, ◌*◌, ◌≤◌, true};
ghost use Rattle.flashbase.specs.Sinks.{PutsTo};
ghost use Rattle.jscan.specs.Image.{is_block_size, greatest_image};
ghost use Rattle.jopenings.specs.Stretches.{AreStretches};
ghost use Rattle.jdevice.specs.Run.{device_done, device_image};

use crate::running::{DevicePlan, DeviceRun};
use flashbase::{PutFault, Sink};
use jopenings::{StretchesOnFlash, len_with_stretches, put_with_stretches};

/// Puts an image with what went out to its openings, as long as it was, or up to the last of these
/// bytes.
pub fn put_device<S: Sink>(
    sink: &mut S,
    on: DevicePlan,
    image: &[u8],
    run: &DeviceRun,
) -> Result<(), PutFault>
    requires readable { is_block_size on.flash.geometry.block ≡ true }
    requires small { on.flash.blocks * on.flash.geometry.block ≤ greatest_image }
    requires lie { AreStretches on.flash.geometry.block 0 on.flash.blocks
        (device_done run.now).stretches }
    ensures { PutsTo S.Sink sink.old sink.new (device_image on image.now (device_done run.now))
        result }
{
    let lie = StretchesOnFlash {
        geometry: on.flash.geometry,
        blocks: on.flash.blocks,
        stretches: &run.stretches,
    };
    let len = len_with_stretches(&lie, image, &run.bytes);
    put_with_stretches(sink, &lie, image, &run.bytes, len)
}
