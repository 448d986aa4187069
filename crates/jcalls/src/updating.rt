//! An image with further nodes in its openings, as `update` writes it.

ghost use Rattle.std.specs.Prelude.{◌≡◌, ◌≢◌, ◌≤◌, ◌*◌, ◌⊎◌, [], true, Some, Err, IfOk, IfErr, OnOk, IsOk};
ghost use Rattle.jlog.specs.Resuming.{resumes};
ghost use Rattle.jmount.specs.Mount.{Mount};
ghost use Rattle.jscan.specs.Image.{is_block_size, greatest_image};
ghost use Rattle.jopenings.specs.Stretches.{AreStretches, image_with};
ghost use Rattle.jpacked.specs.Forms.{is_packed};
ghost use Rattle.jupdate.specs.View.{IsBegunIn, packs_of, sink_of};
ghost use Rattle.jview.specs.Through.{IsMountThroughOf};
ghost use Rattle.jcalls.specs.Asked.{is_asked};
ghost use Rattle.jcalls.specs.Shown.{IsDueFault};
ghost use Rattle.jcalls.specs.Told.{told_at, told_by};
ghost use Rattle.jcalls.specs.Updating.{DeviceRefused, GivesUpdated, IsUpdated, IsUpdatedAsked, IsUpdatedBy, IsUpdatedOn, NeedsForUpdated, UpdateRefused, UpdateRefusedBy, openings_on};
ghost use Rattle.jcalls.specs.Works.{listed_in};

use crate::appending::{Made, Written, give_made, made_of, stop_of};
use crate::how::How;
use crate::told::{Fault, Told, no_memory, session_told, tell, view_told};
use crate::working::{Planned, Work, flash_of, plan};
use byteorder::{BigEndian, LittleEndian};
use flashbase::{FromWriter, Sink};
use jlog::{Flash, SessionFault};
use jmount::Mounted;
use jnode::Order;
use jopenings::{Stretch, StretchesOnFlash, len_with_stretches, put_with_stretches};
use jpacked::{NodeForms, start_at};
use jrests::openings_of;
use jthrough::mount_through;
use jupdate::OpeningSession;
use std::alloc::Global;

/// What is to be done to a device's image, and whether new data are compressed.
#[derive(Clone, Copy)]
pub struct DeviceWork<'a> {
    pub work: Work<'a>,
    /// 0 where new nodes have their data as they are, any other number where those of regular files
    /// are compressed by ZLIB if that makes a node shorter.
    pub pack: u32,
}

/// The forms in which new nodes go out.
fn forms_by(pack: u32) -> NodeForms
    ensures { is_packed result ≡ is_asked pack }
{
    if pack != 0 {
        NodeForms::Packed
    } else {
        NodeForms::Own
    }
}

/// An image with what went out to its openings.
fn placed(
    alloc: Global,
    flash: Flash,
    image: &[u8],
    stretches: &[Stretch],
    bytes: &[u8],
) -> Result<Vec<u8>, Told>
    requires readable { is_block_size flash.geometry.block ≡ true }
    requires small { flash.blocks * flash.geometry.block ≤ greatest_image }
    requires stretches { AreStretches flash.geometry.block 0 flash.blocks stretches.now }
    ensures ok { IfOk result (λ made. made.items ≡ image_with flash.geometry.block flash.blocks
        image.now stretches.now bytes.now) }
    ensures err { IfErr result (IsDueFault (λ told. told ≡ told_at 7 0 0)) }
{
    let on = StretchesOnFlash {
        geometry: flash.geometry,
        blocks: flash.blocks,
        stretches,
    };
    let len = len_with_stretches(&on, image, bytes);
    let mut sink = FromWriter::new(Vec::new(alloc));
    match put_with_stretches(&mut sink, &on, image, bytes, len) {
        Ok(()) => Ok(sink.into_writer()),
        Err(_) => Err(no_memory()),
    }
}

/// Whether a mounted image is gone on from.
fn judge<E: Order>(mounted: &Mounted<'_>, flash: Flash) -> Result<(), SessionFault>
    ensures ok { OnOk result (IsOk (resumes E.order flash mounted.now)) }
    ensures err { IfErr result (λ why. resumes E.order flash mounted.now ≡ Err why) }
{
    match start_at::<E>(mounted, flash.geometry, flash.blocks, flash.page) {
        Ok(_) => Ok(()),
        Err(why) => Err(why),
    }
}

/// The operations in a session that began in all openings of a mounted image.
fn update_in_session<E: Order>(
    alloc: Global,
    mounted: &Mounted<'_>,
    flash: Flash,
    mut session: OpeningSession<E, FromWriter<Vec<u8>>>,
    planned: &Planned<'_>,
) -> Result<Made, Told>
    requires begun { IsBegunIn mounted.now flash
        (openings_on E.order flash mounted.now.image) (sink_of session) session }
    requires sink { ⟦<FromWriter<Vec<u8>> as Sink>⟧.taken (sink_of session) ≡ Some [] }
    requires none_failed { ⟦<FromWriter<Vec<u8>> as Sink>⟧.failures (sink_of session) ≡ 0 }
    ensures ok { IfOk result (λ made. IsUpdatedOn E.order flash (packs_of session)
        mounted.now.image planned.now.ops.items planned.now.numbers.items made.bytes.items
        made.row) }
    ensures err { IfErr result (IsDueFault (λ told. told ≡ told_at 7 0 0)) }
{
    let report = session.run(alloc, &planned.ops);
    let stop = match stop_of(&planned.numbers, &report) {
        Ok(stop) => stop,
        Err(told) => return Err(told),
    };
    let bytes = session
        .replace_sink(FromWriter::new(Vec::new(alloc)))
        .into_writer();
    match placed(alloc, flash, mounted.image(), session.stretches(), &bytes) {
        Ok(image) => Ok(made_of(image, &report, stop)),
        Err(told) => Err(told),
    }
}

/// Those in all openings of a mounted image that is gone on from.
fn update_mounted<E: Order>(
    alloc: Global,
    mounted: &Mounted<'_>,
    flash: Flash,
    pack: u32,
    planned: &Planned<'_>,
) -> Result<Made, Told>
    requires through { IsMountThroughOf E.order flash.geometry.block mounted.now }
    requires goes_on { IsOk (resumes E.order flash mounted.now) }
    ensures ok { IfOk result (λ made. IsUpdatedOn E.order flash (is_asked pack)
        mounted.now.image planned.now.ops.items planned.now.numbers.items made.bytes.items
        made.row) }
    ensures err { IfErr result (IsDueFault (λ told. told ≡ told_at 7 0 0)) }
{
    let row = match openings_of::<E>(alloc, mounted.image(), flash.geometry, flash.blocks) {
        Ok(row) => row,
        Err(_) => return Err(no_memory()),
    };
    let forms = forms_by(pack);
    let sink = FromWriter::new(Vec::new(alloc));
    match OpeningSession::<E, FromWriter<Vec<u8>>>::resume(
        alloc, mounted, flash, row, forms, sink,
    ) {
        Ok(session) => update_in_session::<E>(alloc, mounted, flash, session, planned),
        Err((_, _)) => Err(no_memory()),
    }
}

/// Those on an image.
fn update_on<E: Order>(
    alloc: Global,
    image: &[u8],
    flash: Flash,
    pack: u32,
    planned: &Planned<'_>,
) -> Result<Made, Told>
    ensures ok { IfOk result (λ made. IsUpdated E.order flash (is_asked pack) image.now
        planned.now.ops.items planned.now.numbers.items made.bytes.items made.row) }
    ensures err { IfErr result (IsDueFault (DeviceRefused E.order flash image.now)) }
{
    let mut contents = Vec::new(alloc);
    let mounted = match mount_through::<E>(alloc, image, flash.geometry, &mut contents) {
        Ok(mounted) => mounted,
        Err(why) => return Err(view_told(why)),
    };
    match judge::<E>(&mounted, flash) {
        Ok(()) => update_mounted::<E>(alloc, &mounted, flash, pack, planned),
        Err(why) => Err(session_told(0, why)),
    }
}

/// Those of a listing.
fn update_in<E: Order>(
    alloc: Global,
    image: &[u8],
    flash: Flash,
    device: DeviceWork<'_>,
) -> Result<Made, Told>
    ensures ok { IfOk result (λ made. IsUpdatedBy E.order flash (is_asked device.entry.pack)
        image.now (listed_in device.entry.work) made.bytes.items made.row) }
    ensures err { IfErr result
        (IsDueFault (UpdateRefusedBy E.order flash image.now (listed_in device.entry.work))) }
{
    match plan::<E>(alloc, device.work.listing, device.work.files) {
        Ok(planned) => update_on::<E>(alloc, image, flash, device.pack, &planned),
        Err(told) => Err(told),
    }
}

fn update_asked(alloc: Global, image: &[u8], how: How, device: DeviceWork<'_>) -> Result<Made, Told>
    ensures ok { IfOk result (λ made. IsUpdatedAsked how image.now device.entry.work.target
        device.entry.pack (listed_in device.entry.work) made.bytes.items made.row) }
    ensures err { IfErr result (IsDueFault (UpdateRefused how image.now device.entry.work.target
        (listed_in device.entry.work))) }
{
    let flash = match flash_of(how.block, device.work.target) {
        Ok(flash) => flash,
        Err(told) => return Err(told),
    };
    if how.is_big() {
        update_in::<BigEndian>(alloc, image, flash, device)
    } else {
        update_in::<LittleEndian>(alloc, image, flash, device)
    }
}

/// A device's image with what the operations of a listing write to its blank blocks and to the rests
/// of begun ones: each other byte is as it is in the image. What the image shows is read through its
/// compression, whatever is asked. Where an operation is declined, those before it are written, and
/// `written` says so.
///
/// # Errors
/// 25: no such page. 32: a row of the files is not within their bytes. 30, 33: a line means
/// nothing, or names a file that is not there. 1 to 7, 20, 21: the image does not mount, or there is
/// no memory. 22, 23: the image is not gone on from. `out` and `written` are then as they were. 9:
/// there is no room for all bytes; `written` says how many there are, and `out` is as it was.
pub fn update(
    alloc: Global,
    image: &[u8],
    how: How,
    device: DeviceWork<'_>,
    out: &mut [u8],
    written: &mut Written,
    fault: &mut Fault,
) -> u32
    ensures done { result ≡ 0
        → GivesUpdated how image.now device.entry.work.target device.entry.pack
        (listed_in device.entry.work) out.old out.new written.new }
    ensures small { result ≡ 9
        → NeedsForUpdated how image.now device.entry.work.target device.entry.pack
        (listed_in device.entry.work) out.old written.new }
    ensures refused { result ≢ 0 → result ≢ 9
        → UpdateRefused how image.now device.entry.work.target (listed_in device.entry.work)
        (told_by result fault.new) }
    ensures kept { result ≢ 0 → out.new ≡ out.old }
    ensures written_kept { result ≢ 0 → result ≢ 9 → written.new ≡ written.old }
    ensures quiet { (result ≡ 0) ⊎ (result ≡ 9) → fault.new ≡ fault.old }
{
    match update_asked(alloc, image, how, device) {
        Ok(made) => give_made(&made, out, written),
        Err(told) => tell(told, fault),
    }
}
