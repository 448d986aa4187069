//! The file of an image is made: the image, with what a run did, goes to it.
ghost use Rattle.std.specs.Prelude.{◌≡◌, ◌*◌, ◌≤◌, ℕ, List, true};
ghost use Rattle.std.specs.Io.KnownBytes.{Appends};
ghost use Rattle.jscan.specs.Image.{is_block_size, greatest_image};
ghost use Rattle.jopenings.specs.Stretches.{AreStretches};
ghost use Rattle.jdevice.specs.Run.{device_done, device_image};
ghost use Rattle.jedge.specs.Acts.{DoesFrom, seen_as};
ghost use Rattle.jmakes.specs.Making.{makes, wanted_file};
ghost use Rattle.jupdates.specs.Updating.{PutsImage, device_made, ends_well};

use flashbase::Sink;
use jdevice::{DevicePlan, DeviceRun, put_device};
use jedge::fault::Fault;
use jmakes::host::FileHost;
use jmakes::wanted::{CloseFault, Wanted};

/// Whether all of an image was put into a file, and how that ended.
#[derive(Drop)]
pub struct DeviceMade {
    pub put: bool,
    pub closed: Result<(), CloseFault>,
}

/// Whether the file of an image ends well, of which all was put or not.
fn ends_well(run: &DeviceRun, put: bool) -> bool
    ensures { result ≡ ends_well (device_done run.now) put }
{
    put && run.report.stopped.is_none()
}

/// Puts an image with what a run did. Answers whether all of it was put.
fn put_image<S: Sink>(sink: &mut S, on: DevicePlan, image: &[u8], run: &DeviceRun) -> bool
    requires readable { is_block_size on.flash.geometry.block ≡ true }
    requires small { on.flash.blocks * on.flash.geometry.block ≤ greatest_image }
    requires lie { AreStretches on.flash.geometry.block 0 on.flash.blocks
        (device_done run.now).stretches }
    requires sound { S.failures sink.old ≡ 0 }
    ensures { (text : List ℕ) × Appends (S.taken sink.old) (S.taken sink.new) text
        × PutsImage (device_image on image.now (device_done run.now)) text (S.failures sink.new)
        result }
{
    match put_device(sink, on, image, run) {
        Ok(()) => true,
        Err(_) => false,
    }
}

/// Makes the file of it.
pub(crate) fn make_device<H: FileHost>(
    host: &mut H,
    file: Wanted<'_>,
    on: DevicePlan,
    image: &[u8],
    run: &DeviceRun,
) -> Result<DeviceMade, Fault>
    requires readable { is_block_size on.flash.geometry.block ≡ true }
    requires small { on.flash.blocks * on.flash.geometry.block ≤ greatest_image }
    requires lie { AreStretches on.flash.geometry.block 0 on.flash.blocks
        (device_done run.now).stretches }
    ensures { DoesFrom (H.history host.old) (H.history host.new)
        (makes (wanted_file file.entry)
        (PutsImage (device_image on image.now (device_done run.now)))
        (ends_well (device_done run.now))) (seen_as device_made result) }
{
    let (opened, mut made) = match host.create(file) {
        Ok(created) => created,
        Err(fault) => return Err(fault),
    };
    let put = put_image::<H::Made>(&mut made, on, image, run);
    let closed = host.close_file(opened, made, file.filling, ends_well(run, put));
    Ok(DeviceMade { put, closed })
}
