//! How many blank blocks a run leaves.

ghost use Rattle.std.specs.Prelude.{◌≡◌, ◌*◌, ◌≤◌, true};
ghost use Rattle.jscan.specs.Image.{is_block_size, greatest_image};
ghost use Rattle.jopenings.specs.Stretches.{AreStretches};
ghost use Rattle.jdevice.specs.Blank.{blank_left, reserve_on};
ghost use Rattle.jdevice.specs.Run.{device_done};

use crate::running::{DevicePlan, DeviceRun};
use jopenings::{StretchesOnFlash, erased_with_stretches};
use jreserve::linux_reserve;

/// How many blocks of the flash are blank in an image with what a run did.
pub fn blank_left(on: DevicePlan, image: &[u8], run: &DeviceRun) -> u32
    requires readable { is_block_size on.flash.geometry.block ≡ true }
    requires small { on.flash.blocks * on.flash.geometry.block ≤ greatest_image }
    requires lie { AreStretches on.flash.geometry.block 0 on.flash.blocks
        (device_done run.now).stretches }
    ensures { result ≡ blank_left on image.now (device_done run.now) }
{
    let lie = StretchesOnFlash {
        geometry: on.flash.geometry,
        blocks: on.flash.blocks,
        stretches: &run.stretches,
    };
    erased_with_stretches(&lie, image, &run.bytes)
}

/// How many blocks of the flash Linux keeps in reserve.
pub fn reserve_on(on: DevicePlan) -> u32
    requires { is_block_size on.flash.geometry.block ≡ true }
    ensures { result ≡ reserve_on on }
{
    linux_reserve(on.flash.geometry, on.flash.blocks)
}
