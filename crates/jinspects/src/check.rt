//! `check --decompress`: the report of an image, and the verdict on its mount through its
//! compression.
ghost use Rattle.std.specs.Prelude.{◌≡◌};
ghost use Rattle.flashbase.specs.Sinks.{change_of};
ghost use Rattle.jscan.specs.Scans.{IsScannable};
ghost use Rattle.jedge.specs.Acts.{DoesFrom, PutsBy, prints, seen_as};
ghost use Rattle.jedge.specs.Showing.{found_checked};
ghost use Rattle.jedge.specs.Told.{found_told};
ghost use Rattle.jinspects.specs.Inspecting.{check_through_act};
ghost use Rattle.jinspects.specs.ThroughVerdict.{ChecksThrough};

use crate::verdict::put_verdict;
use flashbase::Sink;
use jcommand::Options;
use jedge::fault::Fault;
use jedge::found::{Found, finished};
use jedge::host::Host;
use jedge::mounting::judge_block_size;
use jnode::Order;
use jreport::{ReportFault, put_report};
use jscan::Geometry;
use std::alloc::Global;

/// What a check comes to.
fn found_checked(found: bool) -> Found<'static>
    ensures { found_told result ≡ found_checked found }
{
    Found {
        counted: u64::from(found),
        note: None,
    }
}

/// Puts the report of an image, and then the verdict on its mount.
fn put_check<E: Order, T: Sink>(
    alloc: Global,
    image: &[u8],
    geometry: Geometry,
    shape: bool,
    sink: &mut T,
) -> Result<Found<'static>, Fault>
    requires { IsScannable geometry.block image.now }
    ensures { PutsBy (ChecksThrough E.order geometry.block shape image.now)
        (change_of T.Sink sink.old sink.new) (seen_as found_told result) }
{
    match put_report::<E, T>(image, geometry, sink) {
        Ok(_) => {}
        Err(ReportFault::Output | ReportFault::Scan(_)) => return Err(Fault::Output),
    }
    match put_verdict::<E, T>(alloc, image, geometry, shape, sink) {
        Ok(bad) => Ok(found_checked(bad)),
        Err(fault) => Err(fault),
    }
}

/// Prints them.
fn print_check<E: Order, H: Host>(
    host: &mut H,
    image: &[u8],
    geometry: Geometry,
    shape: bool,
) -> Result<Found<'static>, Fault>
    requires { IsScannable geometry.block image.now }
    ensures { DoesFrom (H.history host.old) (H.history host.new)
        (prints (ChecksThrough E.order geometry.block shape image.now))
        (seen_as found_told result) }
{
    let mut out = match host.output() {
        Ok(out) => out,
        Err(fault) => return Err(fault),
    };
    let answer = put_check::<E, _>(host.alloc(), image, geometry, shape, &mut out);
    let closed = host.close(out);
    finished(answer, closed)
}

/// `check --decompress`.
pub fn check_through<E: Order, H: Host>(
    host: &mut H,
    options: Options,
    shape: bool,
    image: &str,
) -> Result<Found<'static>, Fault>
    requires { options.endian ≡ E.order }
    ensures { DoesFrom (H.history host.old) (H.history host.new)
        (check_through_act options shape image.now) (seen_as found_told result) }
{
    let input = match host.open(image) {
        Ok(input) => input,
        Err(fault) => return Err(fault),
    };
    match judge_block_size(options.geometry) {
        Ok(()) => {}
        Err(fault) => return Err(fault),
    }
    match host.read(input) {
        Ok(bytes) => print_check::<E, H>(host, bytes.as_slice(), options.geometry, shape),
        Err(fault) => Err(fault),
    }
}
