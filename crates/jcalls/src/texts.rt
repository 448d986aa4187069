//! The texts that the program prints of an image: the lines of `ls`, and the report of `check`.

ghost use Rattle.std.specs.Prelude.{◌≡◌, ◌≢◌, ◌⊎◌, IfOk, IfErr, OnOk};
ghost use Rattle.jmount.specs.Tree.{State};
ghost use Rattle.jscan.specs.Scans.{IsScannable};
ghost use Rattle.jcalls.specs.Asked.{asked_order, is_asked};
ghost use Rattle.jcalls.specs.Counting.{CountRefused};
ghost use Rattle.jcalls.specs.Looking.{LeadsNowhere, StatRefused};
ghost use Rattle.jcalls.specs.Made.{GivesMade, NeedsForMade};
ghost use Rattle.jcalls.specs.Shown.{Shows, ShowsNone, IsDueFault};
ghost use Rattle.jcalls.specs.Texts.{IsListing, IsReport, ReportRefused};
ghost use Rattle.jcalls.specs.Told.{told_at, told_by};

use crate::giving::give_all;
use crate::how::How;
use crate::mounting::mount_asked;
use crate::told::{Fault, Told, find_told, no_memory, scan_told, tell};
use byteorder::{BigEndian, LittleEndian};
use flashbase::FromWriter;
use jmount::Mounted;
use jnode::Order;
use jreport::{ProgramFault, image_check, put_subtree};
use jscan::{GREATEST_IMAGE, Geometry, ScanFault};
use std::alloc::Global;

/// The lines of the object that a path names, and of what lies below it.
fn lines_at(alloc: Global, mounted: &Mounted<'_>, path: &[u8]) -> Result<Vec<u8>, Told>
    ensures ok { IfOk result (λ text. IsListing mounted.now.state path.now text.items) }
    ensures err { IfErr result (IsDueFault (λ told.
        LeadsNowhere mounted.now.state path.now told ⊎ (told ≡ told_at 7 0 0))) }
{
    let mut sink = FromWriter::new(Vec::new(alloc));
    match put_subtree(alloc, mounted, path, &mut sink) {
        Ok(()) => Ok(sink.into_writer()),
        Err(ProgramFault::Path(why)) => Err(find_told(why)),
        Err(_) => Err(no_memory()),
    }
}

fn listing_of(alloc: Global, image: &[u8], how: How, path: &[u8]) -> Result<Vec<u8>, Told>
    ensures ok { IfOk result (λ text. (s : State) × Shows how image.now s
        × IsListing s path.now text.items) }
    ensures err { IfErr result (IsDueFault (StatRefused how image.now path.now)) }
{
    let mut contents = Vec::new(alloc);
    match mount_asked(alloc, image, how, &mut contents) {
        Ok(mounted) => lines_at(alloc, &mounted, path),
        Err(told) => Err(told),
    }
}

/// The lines that `ls` prints of the object that a path names, and of what lies below it; of `/`
/// those of the whole image.
///
/// # Errors
/// 1 to 7, 20, 21: the image does not mount. 10 to 12: the path leads to nothing. 9: there is no
/// room for all bytes, and `needed` says how many there are. `out` is then as it was.
pub fn tree_text(
    alloc: Global,
    image: &[u8],
    how: How,
    path: &[u8],
    out: &mut [u8],
    needed: &mut usize,
    fault: &mut Fault,
) -> u32
    ensures done { result ≡ 0 → (s : State) × Shows how image.now s
        × GivesMade (IsListing s path.now) out.old out.new needed.new }
    ensures small { result ≡ 9 → (s : State) × Shows how image.now s
        × NeedsForMade (IsListing s path.now) out.old needed.new }
    ensures refused { result ≢ 0 → result ≢ 9
        → StatRefused how image.now path.now (told_by result fault.new) }
    ensures kept { result ≢ 0 → out.new ≡ out.old }
    ensures needed_kept { result ≢ 0 → result ≢ 9 → needed.new ≡ needed.old }
    ensures quiet { (result ≡ 0) ⊎ (result ≡ 9) → fault.new ≡ fault.old }
{
    match listing_of(alloc, image, how, path) {
        Ok(text) => give_all(&text, out, needed),
        Err(told) => tell(told, fault),
    }
}

/// Whether an image is scanned at all.
fn judged(image: &[u8], geometry: Geometry) -> Result<(), Told>
    ensures ok { OnOk result (IsScannable geometry.block image.now) }
    ensures err { IfErr result (IsDueFault (CountRefused geometry.block image.now)) }
{
    if !geometry.is_readable() {
        return Err(scan_told(ScanFault::BlockSize));
    }
    if GREATEST_IMAGE < image.len() {
        return Err(scan_told(ScanFault::TooLarge));
    }
    Ok(())
}

/// The report of an image that is scanned, and the verdict on its mount.
fn report_in<E: Order>(
    alloc: Global,
    image: &[u8],
    geometry: Geometry,
    shape: bool,
) -> Result<Vec<u8>, Told>
    requires { IsScannable geometry.block image.now }
    ensures ok { IfOk result
        (λ text. IsReport E.order geometry.block shape image.now text.items) }
    ensures err { IfErr result (IsDueFault (ReportRefused geometry.block image.now)) }
{
    let mut sink = FromWriter::new(Vec::new(alloc));
    match image_check::<E, FromWriter<Vec<u8>>>(alloc, image, geometry, shape, &mut sink) {
        Ok(_) => Ok(sink.into_writer()),
        Err(_) => Err(no_memory()),
    }
}

fn report_of(alloc: Global, image: &[u8], how: How, shape: bool) -> Result<Vec<u8>, Told>
    ensures ok { IfOk result
        (λ text. IsReport (asked_order how) how.block shape image.now text.items) }
    ensures err { IfErr result (IsDueFault (ReportRefused how.block image.now)) }
{
    let geometry = Geometry { block: how.block };
    if let Err(told) = judged(image, geometry) {
        return Err(told);
    }
    if how.is_big() {
        report_in::<BigEndian>(alloc, image, geometry, shape)
    } else {
        report_in::<LittleEndian>(alloc, image, geometry, shape)
    }
}

/// What `check` prints of an image: its report, and then the verdict on its mount; with the shape
/// of its tree if `shape` is not 0. Whether data are to be read through is not asked here.
///
/// # Errors
/// 1: the block size is not read. 2: the image is too long. 7: there is no memory. 9: there is no
/// room for all bytes, and `needed` says how many there are. `out` is then as it was.
pub fn check_text(
    alloc: Global,
    image: &[u8],
    how: How,
    shape: u32,
    out: &mut [u8],
    needed: &mut usize,
    fault: &mut Fault,
) -> u32
    ensures done { result ≡ 0
        → GivesMade (IsReport (asked_order how) how.block (is_asked shape) image.now)
        out.old out.new needed.new }
    ensures small { result ≡ 9
        → NeedsForMade (IsReport (asked_order how) how.block (is_asked shape) image.now)
        out.old needed.new }
    ensures refused { result ≢ 0 → result ≢ 9
        → ReportRefused how.block image.now (told_by result fault.new) }
    ensures kept { result ≢ 0 → out.new ≡ out.old }
    ensures needed_kept { result ≢ 0 → result ≢ 9 → needed.new ≡ needed.old }
    ensures quiet { (result ≡ 0) ⊎ (result ≡ 9) → fault.new ≡ fault.old }
{
    match report_of(alloc, image, how, shape != 0) {
        Ok(text) => give_all(&text, out, needed),
        Err(told) => tell(told, fault),
    }
}
