//! An image with further nodes behind its own, as `append` writes it.

ghost use Rattle.std.specs.Prelude.{◌≡◌, ◌≢◌, ◌<◌, ◌⊎◌, ◌++◌, drop, IfOk, IfErr, length};
ghost use Rattle.jlog.specs.View.{flash_of_start, mount_of};
ghost use Rattle.jcalls.specs.Appending.{AppendRefused, AppendRefusedBy, GivesAppended, IsAppended, IsAppendedAsked, IsAppendedBy, IsWrittenOn, NeedsForAppended, stop_in, stop_told};
ghost use Rattle.jcalls.specs.Shown.{IsDueFault};
ghost use Rattle.jcalls.specs.Told.{told_at, told_by, told_number};
ghost use Rattle.jcalls.specs.Works.{ImageRefused, listed_in, line_number_at};

use crate::giving::give_bytes;
use crate::how::How;
use crate::told::{Fault, OK, SMALL, Told, mount_told, no_memory, session_told, tell};
use crate::working::{Planned, Work, flash_of, plan};
use byteorder::{BigEndian, LittleEndian};
use flashbase::FromWriter;
use jbuild::emit_from;
use jlog::{Flash, RunReport, Start};
use jmount::mount;
use jnode::Order;
use std::alloc::Global;

/// What was written: how many bytes the image has, how many operations were accepted, and how many
/// nodes these have. If an operation stopped the others, why, and at which line.
#[repr(C)]
#[derive(Clone, Copy)]
pub struct Written {
    pub bytes: u64,
    pub accepted: u64,
    pub nodes: u64,
    /// 0 where all operations were accepted; 24 where there is no room for one, 31 where one is
    /// refused.
    pub stop: u32,
    /// The line of that one, else 0.
    pub line: u32,
    /// At 31 why: 1 to 12 for O1 to O12 of the manual page, else 0.
    pub detail: u32,
    /// 0.
    pub spare: u32,
}

/// An image that was written.
#[derive(Drop)]
pub(crate) struct Made {
    pub(crate) bytes: Vec<u8>,
    pub(crate) row: Written,
}

/// The line of the operation that stopped the others.
fn line_of(numbers: &[usize], accepted: usize) -> usize
    ensures { result ≡ line_number_at numbers.now accepted }
{
    numbers.get(accepted).copied().unwrap_or(0)
}

/// What is told of the operation that stopped the others, if one did, and memory did not run out.
pub(crate) fn stop_of(numbers: &[usize], report: &RunReport) -> Result<Told, Told>
    ensures ok { IfOk result (λ told. told
        ≡ stop_told (told_number (line_number_at numbers.now report.now.accepted))
        report.now.stopped) }
    ensures memory { IfOk result (λ told. told.status ≢ 7) }
    ensures err { IfErr result (IsDueFault (λ told. told ≡ told_at 7 0 0)) }
{
    match report.stopped {
        None => Ok(Told {
            status: 0,
            address: 0,
            detail: 0,
        }),
        Some(fault) => {
            let told = session_told(line_of(numbers, report.accepted), fault);
            if told.status == 7 {
                Err(no_memory())
            } else {
                Ok(told)
            }
        }
    }
}

pub(crate) fn made_of(bytes: Vec<u8>, report: &RunReport, stop: Told) -> Made
    ensures bytes { result.bytes.items ≡ bytes.items }
    ensures long { result.row.bytes ≡ length bytes.items }
    ensures accepted { result.row.accepted ≡ report.now.accepted }
    ensures nodes { result.row.nodes ≡ length report.now.places.items }
    ensures stop { stop_in result.row ≡ stop }
    ensures spare { result.row.spare ≡ 0 }
{
    let row = Written {
        bytes: bytes.len() as u64,
        accepted: report.accepted as u64,
        nodes: report.places.len() as u64,
        stop: stop.status,
        line: stop.address,
        detail: stop.detail,
        spare: 0,
    };
    Made { bytes, row }
}

/// The operations from where a log goes on.
fn append_from<E: Order>(
    alloc: Global,
    start: &Start<'_, '_, E>,
    planned: &Planned<'_>,
) -> Result<Made, Told>
    ensures ok { IfOk result (λ made. IsWrittenOn E.order (flash_of_start start.now)
        (mount_of start.now).image planned.now.ops.items planned.now.numbers.items
        made.bytes.items made.row) }
    ensures err { IfErr result (IsDueFault (λ told. told ≡ told_at 7 0 0)) }
{
    let sink = FromWriter::new(Vec::new(alloc));
    match emit_from::<E, FromWriter<Vec<u8>>>(alloc, start, &planned.ops, sink) {
        Ok((sink, done)) => match stop_of(&planned.numbers, &done.report) {
            Ok(stop) => Ok(made_of(sink.into_writer(), &done.report, stop)),
            Err(told) => Err(told),
        },
        Err((_, _)) => Err(no_memory()),
    }
}

/// Those on an image.
fn append_on<E: Order>(
    alloc: Global,
    image: &[u8],
    flash: Flash,
    planned: &Planned<'_>,
) -> Result<Made, Told>
    ensures ok { IfOk result (λ made. IsAppended E.order flash image.now planned.now.ops.items
        planned.now.numbers.items made.bytes.items made.row) }
    ensures err { IfErr result (IsDueFault (ImageRefused E.order flash image.now)) }
{
    let mounted = match mount::<E>(alloc, image, flash.geometry) {
        Ok(mounted) => mounted,
        Err(why) => return Err(mount_told(why)),
    };
    match Start::<E>::of(&mounted, flash) {
        Ok(start) => append_from::<E>(alloc, &start, planned),
        Err(why) => Err(session_told(0, why)),
    }
}

/// Those of a listing.
fn append_in<E: Order>(
    alloc: Global,
    image: &[u8],
    flash: Flash,
    work: Work<'_>,
) -> Result<Made, Told>
    ensures ok { IfOk result
        (λ made. IsAppendedBy E.order flash image.now (listed_in work.entry) made.bytes.items
        made.row) }
    ensures err { IfErr result
        (IsDueFault (AppendRefusedBy E.order flash image.now (listed_in work.entry))) }
{
    match plan::<E>(alloc, work.listing, work.files) {
        Ok(planned) => append_on::<E>(alloc, image, flash, &planned),
        Err(told) => Err(told),
    }
}

fn append_asked(alloc: Global, image: &[u8], how: How, work: Work<'_>) -> Result<Made, Told>
    ensures ok { IfOk result
        (λ made. IsAppendedAsked how image.now work.entry.target (listed_in work.entry)
        made.bytes.items made.row) }
    ensures err { IfErr result (IsDueFault
        (AppendRefused how image.now work.entry.target (listed_in work.entry))) }
{
    let flash = match flash_of(how.block, work.target) {
        Ok(flash) => flash,
        Err(told) => return Err(told),
    };
    if how.is_big() {
        append_in::<BigEndian>(alloc, image, flash, work)
    } else {
        append_in::<LittleEndian>(alloc, image, flash, work)
    }
}

/// Gives an image to the caller, if there is room for it; what was written is told in any case.
pub(crate) fn give_made(made: &Made, out: &mut [u8], written: &mut Written) -> u32
    ensures row { written.new ≡ made.now.row }
    ensures given { result ≡ 0
        → out.new ≡ made.now.bytes.items ++ drop (length made.now.bytes.items) out.old }
    ensures short { result ≡ 9 → length out.old < length made.now.bytes.items }
    ensures kept { result ≢ 0 → out.new ≡ out.old }
    ensures either { result ≢ 0 → result ≡ 9 }
{
    *written = made.row;
    if out.len() < made.bytes.len() {
        return SMALL;
    }
    give_bytes(&made.bytes, out);
    OK
}

/// An image with what the operations of a listing write behind its nodes: of an image without bytes
/// a new one. Where an operation is declined, those before it are written, and `written` says so.
/// Whether data are to be read through is not asked here.
///
/// # Errors
/// 25: no such page. 32: a row of the files is not within their bytes. 30, 33: a line means
/// nothing, or names a file that is not there. 1 to 7: the image does not mount, or there is no
/// memory. 22, 23: the image is not gone on from. `out` and `written` are then as they were. 9:
/// there is no room for all bytes; `written` says how many there are, and `out` is as it was.
pub fn append(
    alloc: Global,
    image: &[u8],
    how: How,
    work: Work<'_>,
    out: &mut [u8],
    written: &mut Written,
    fault: &mut Fault,
) -> u32
    ensures done { result ≡ 0
        → GivesAppended how image.now work.entry.target (listed_in work.entry)
        out.old out.new written.new }
    ensures small { result ≡ 9
        → NeedsForAppended how image.now work.entry.target (listed_in work.entry)
        out.old written.new }
    ensures refused { result ≢ 0 → result ≢ 9
        → AppendRefused how image.now work.entry.target (listed_in work.entry)
        (told_by result fault.new) }
    ensures kept { result ≢ 0 → out.new ≡ out.old }
    ensures written_kept { result ≢ 0 → result ≢ 9 → written.new ≡ written.old }
    ensures quiet { (result ≡ 0) ⊎ (result ≡ 9) → fault.new ≡ fault.old }
{
    match append_asked(alloc, image, how, work) {
        Ok(made) => give_made(&made, out, written),
        Err(told) => tell(told, fault),
    }
}
