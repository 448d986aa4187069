//! Operations run in the openings of a mounted image, and it goes to a file.
ghost use Rattle.std.specs.Prelude.{◌≡◌, ◌*◌, ◌≤◌, true, IsOk, string_bytes};
ghost use Rattle.jscan.specs.Image.{is_block_size, greatest_image};
ghost use Rattle.jopenings.specs.Stretches.{AreStretches};
ghost use Rattle.jview.specs.Through.{IsMountThroughOf};
ghost use Rattle.jdevice.specs.Blank.{blank_left, reserve_on};
ghost use Rattle.jdevice.specs.Run.{device_done};
ghost use Rattle.jedge.specs.Acts.{DoesFrom, seen_as};
ghost use Rattle.jedge.specs.Commands.{left_told};
ghost use Rattle.jedge.specs.Told.{found_told};
ghost use Rattle.jmakes.specs.Seen.{done_seen, numbered_seen};
ghost use Rattle.jmakes.specs.Writing.{EndsAs, IsStartedBehind, ending_of, plan_on};
ghost use Rattle.jlog.specs.Resuming.{resumes};
ghost use Rattle.jupdates.specs.Asked.{device_to_write};
ghost use Rattle.jupdates.specs.Updating.{RunsOnDevice, ran_of, updated_told, updates_mounted, writes_device};

use crate::asked::DeviceToWrite;
use crate::making::make_device;
use crate::printing::print_updated;
use jbuild::Emitted;
use jdevice::{DevicePlan, DeviceRun, blank_left, reserve_on, run_on_device};
use jedge::fault::Fault;
use jedge::found::Found;
use jedge::subject::{left_found, shown};
use jlog::{Flash, RunReport};
use jmakes::emitting::ImageMade;
use jmakes::ending::{DoneOps, ended};
use jmakes::host::FileHost;
use jmakes::numbered::NumberedOps;
use jmakes::wanted::CloseFault;
use jmakes::written::take_memory;
use jmount::Mounted;
use jnode::Order;
use jpacked::start_at;
use jreport::{Plan, ProgramFault, Reason, cause_of};
use jsteps::Op;
use std::alloc::Global;

/// The flash that is written, and the image on it.
fn plan_on(flash: Flash, image: &[u8]) -> Plan
    ensures { result ≡ plan_on flash image.now }
{
    Plan {
        geometry: flash.geometry,
        blocks: flash.blocks,
        page: flash.page,
        length: image.len(),
    }
}

/// Whether a mounted image is gone on from.
fn judge<E: Order>(mounted: &Mounted<'_>, flash: Flash) -> Result<u32, Fault>
    ensures { IsStartedBehind E.order flash mounted.now result }
{
    match start_at::<E>(mounted, flash.geometry, flash.blocks, flash.page) {
        Ok(from) => Ok(from),
        Err(fault) => {
            let plan = plan_on(flash, mounted.image());
            Err(Fault::Refused(ProgramFault::Session {
                fault,
                line: None,
                cause: cause_of(plan, fault, Reason::Other, None),
            }))
        }
    }
}

/// Runs operations in its openings.
fn run<E: Order>(
    alloc: Global,
    mounted: &Mounted<'_>,
    on: DevicePlan,
    ops: &[Op<'_>],
) -> Result<DeviceRun, Fault>
    requires through { IsMountThroughOf E.order on.flash.geometry.block mounted.now }
    requires goes_on { IsOk (resumes E.order on.flash mounted.now) }
    ensures { RunsOnDevice E.order on mounted.now.image ops.now (seen_as device_done result) }
{
    match run_on_device::<E>(alloc, mounted, on, ops) {
        Ok(run) => Ok(run),
        Err(_) => Err(Fault::OutOfMemory),
    }
}

/// What a run comes to whose image went to the file of a name.
fn run_ended(
    plan: Plan,
    numbers: &[usize],
    run: DeviceRun,
    closed: Result<(), CloseFault>,
    name: String,
) -> Result<DoneOps, Fault>
    ensures { EndsAs (string_bytes name)
        (ending_of plan numbers.now (ran_of (device_done run)) closed)
        (seen_as done_seen result) }
{
    let DeviceRun { report, .. } = run;
    let emitted = Emitted {
        report,
        blocks: Ok(None),
    };
    let made = ImageMade {
        emitted: Ok(emitted),
        closed,
    };
    ended(plan, numbers, made, name)
}

/// Writes an image with what a run did to the file, and prints the line on it.
fn write_device<H: FileHost>(
    host: &mut H,
    device: DeviceToWrite<'_>,
    image: &[u8],
    numbers: &[usize],
    run: DeviceRun,
    found: Found<'static>,
) -> Result<Found<'static>, Fault>
    requires readable { is_block_size device.on.flash.geometry.block ≡ true }
    requires small { device.on.flash.blocks * device.on.flash.geometry.block
        ≤ greatest_image }
    requires lie { AreStretches device.on.flash.geometry.block 0
        device.on.flash.blocks (device_done run).stretches }
    ensures { DoesFrom (H.history host.old) (H.history host.new)
        (writes_device (device_to_write device.entry) image.now numbers.now (device_done run)
        (found_told found.entry)) (seen_as found_told result) }
{
    let (name, out) = match take_memory(host, device.file.name) {
        Ok(taken) => taken,
        Err(fault) => return Err(fault),
    };
    let made = match make_device(host, device.file, device.on, image, &run) {
        Ok(made) => made,
        Err(fault) => return Err(fault),
    };
    let bytes = run.bytes.len();
    let plan = plan_on(device.on.flash, image);
    match run_ended(plan, numbers, run, made.closed, name) {
        Ok(done) => print_updated(host, out, &done, bytes, found),
        Err(fault) => Err(fault),
    }
}

/// What is told of a mount whose openings a run wrote: what is noted of it, and that few blank
/// blocks are left.
fn left_of(
    on: DevicePlan,
    mounted: &Mounted<'_>,
    others: Option<u64>,
    run: &DeviceRun,
) -> Found<'static>
    requires readable { is_block_size on.flash.geometry.block ≡ true }
    requires small { on.flash.blocks * on.flash.geometry.block ≤ greatest_image }
    requires lie { AreStretches on.flash.geometry.block 0 on.flash.blocks
        (device_done run.now).stretches }
    ensures { found_told result ≡ left_told others (blank_left on mounted.now.image
        (device_done run.now)) (reserve_on on) mounted.now }
{
    let left = blank_left(on, mounted.image(), run);
    let reserve = reserve_on(on);
    left_found(mounted, others, u64::from(left), u64::from(reserve))
}

/// What is told of it where that is to be noted, or not.
fn updated_found(
    device: DeviceToWrite<'_>,
    mounted: &Mounted<'_>,
    others: Option<u64>,
    run: &DeviceRun,
) -> Found<'static>
    requires readable { is_block_size device.on.flash.geometry.block ≡ true }
    requires small { device.on.flash.blocks * device.on.flash.geometry.block
        ≤ greatest_image }
    requires lie { AreStretches device.on.flash.geometry.block 0
        device.on.flash.blocks (device_done run.now).stretches }
    ensures { found_told result
        ≡ updated_told (device_to_write device.entry) others mounted.now (device_done run.now) }
{
    if device.notes_left {
        left_of(device.on, mounted, others, run)
    } else {
        shown(mounted, others)
    }
}

/// Runs operations in the openings of an image mounted through its compression, and writes it with
/// what they make.
pub(crate) fn update_mounted<E: Order, H: FileHost>(
    host: &mut H,
    device: DeviceToWrite<'_>,
    mounted: &Mounted<'_>,
    of: &NumberedOps<'_>,
    others: Option<u64>,
) -> Result<Found<'static>, Fault>
    requires { IsMountThroughOf E.order device.on.flash.geometry.block mounted.now }
    ensures { DoesFrom (H.history host.old) (H.history host.new)
        (updates_mounted E.order (device_to_write device.entry) mounted.now
        (numbered_seen of.now) others) (seen_as found_told result) }
{
    match judge::<E>(mounted, device.on.flash) {
        Ok(_) => {}
        Err(fault) => return Err(fault),
    }
    match run::<E>(host.alloc(), mounted, device.on, &of.ops) {
        Ok(run) => {
            let found = updated_found(device, mounted, others, &run);
            write_device(host, device, mounted.image(), &of.numbers, run, found)
        }
        Err(fault) => Err(fault),
    }
}
