//! `check`: the report of an image, and the verdict on its mount.
ghost use Rattle.std.specs.Prelude.{◌≡◌};
ghost use Rattle.jscan.specs.Scans.{IsScannable};
ghost use Rattle.jedge.specs.Acts.{DoesFrom, prints, seen_as};
ghost use Rattle.jedge.specs.Commands.{check_act};
ghost use Rattle.jedge.specs.Showing.{Checks, check_found, found_checked};
ghost use Rattle.jedge.specs.Told.{found_told};

use crate::fault::Fault;
use crate::found::{Found, finished};
use crate::host::Host;
use crate::mounting::judge_block_size;
use jcommand::Options;
use jnode::Order;
use jreport::{ProgramFault, image_check};
use jscan::Geometry;

/// What a check comes to.
fn found_checked(found: bool) -> Found<'static>
    ensures { found_told result ≡ found_checked found }
{
    Found {
        counted: u64::from(found),
        note: None,
    }
}

/// The same, by what was put of it.
fn check_found(put: Result<bool, ProgramFault<'static>>) -> Result<Found<'static>, Fault>
    ensures { seen_as found_told result ≡ check_found put.entry }
{
    match put {
        Ok(found) => Ok(found_checked(found)),
        Err(fault) => Err(Fault::of(fault)),
    }
}

/// Prints the report of an image, and the verdict on its mount.
fn print_check<E: Order, H: Host>(
    host: &mut H,
    image: &[u8],
    geometry: Geometry,
    shape: bool,
) -> Result<Found<'static>, Fault>
    requires { IsScannable geometry.block image.now }
    ensures { DoesFrom (H.history host.old) (H.history host.new)
        (prints (Checks E.order geometry.block shape image.now)) (seen_as found_told result) }
{
    let mut out = match host.output() {
        Ok(out) => out,
        Err(fault) => return Err(fault),
    };
    let put = image_check::<E, _>(host.alloc(), image, geometry, shape, &mut out);
    let closed = host.close(out);
    finished(check_found(put), closed)
}

/// `check`.
pub fn check<E: Order, H: Host>(
    host: &mut H,
    options: Options,
    shape: bool,
    image: &str,
) -> Result<Found<'static>, Fault>
    requires { options.endian ≡ E.order }
    ensures { DoesFrom (H.history host.old) (H.history host.new)
        (check_act options shape image.now) (seen_as found_told result) }
{
    let input = match host.open(image) {
        Ok(input) => input,
        Err(fault) => return Err(fault),
    };
    match judge_block_size(options.geometry) {
        Ok(()) => {}
        Err(fault) => return Err(fault),
    }
    match host.read(input) {
        Ok(bytes) => print_check::<E, H>(host, bytes.as_slice(), options.geometry, shape),
        Err(fault) => Err(fault),
    }
}
