//! The image of a folder is made in memory, and its tree compared with that of a mount.
ghost use Rattle.std.specs.Prelude.{◌≡◌};
ghost use Rattle.jbuild.specs.HostFiles.{part_contents};
ghost use Rattle.jedge.specs.Acts.{DoesFrom, prints, seen_as};
ghost use Rattle.jedge.specs.Comparing.{Compares, lines_compared};
ghost use Rattle.jedge.specs.Told.{found_told};
ghost use Rattle.jpacks.specs.Packing.{writes_listed};
ghost use Rattle.jverifies.specs.Seen.{compared_with};
ghost use Rattle.jverifies.specs.Verifying.{compares_lines, compares_made, compares_text, lines_verified};

use crate::making::make_in_memory;
use jbuild::HostFiles;
use jdiff::{Comparing, put_differences};
use jedge::damage::{either, findings_noted};
use jedge::fault::Fault;
use jedge::found::{Found, finished};
use jedge::host::Host;
use jedge::mounting::mounted;
use jfolders::keeping::Listed;
use jlisting::Line;
use jlog::Flash;
use jmakes::numbered::numbered;
use jmakes::texts::read_lines;
use jmount::Mounted;
use jnode::Order;
use jpacks::compressed::found_with;
use jreads::files_host::FilesHost;
use jreads::named::load_named;
use jreport::{ProgramFault, noted};

/// What a comparison with a mount comes to that has so many lines.
fn lines_verified(image: &Mounted<'_>, lines: u64) -> Found<'static>
    ensures { found_told result ≡ lines_verified image.now lines }
{
    let findings = noted(image);
    Found {
        counted: either(lines, findings),
        note: findings_noted(findings),
    }
}

/// The same, by what was put.
fn lines_put(
    image: &Mounted<'_>,
    put: Result<u64, ProgramFault<'static>>,
) -> Result<Found<'static>, Fault>
    ensures { seen_as found_told result ≡ lines_compared (lines_verified image.now) put.entry }
{
    match put {
        Ok(lines) => Ok(lines_verified(image, lines)),
        Err(fault) => Err(Fault::of(fault)),
    }
}

/// Prints the lines on the tree of a folder, as it was mounted, and on that of an image.
fn print_lines<'m, 'i, H: Host>(
    host: &mut H,
    folder: &'m Mounted<'i>,
    image: &'m Mounted<'i>,
    how: Comparing,
) -> Result<Found<'static>, Fault>
    ensures { DoesFrom (H.history host.old) (H.history host.new)
        (prints (Compares how folder.now image.now (lines_verified image.now)))
        (seen_as found_told result) }
{
    let mut out = match host.output() {
        Ok(out) => out,
        Err(fault) => return Err(fault),
    };
    let put = put_differences(host.alloc(), folder, image, how, &mut out);
    let closed = host.close(out);
    finished(lines_put(image, put), closed)
}

/// What a folder is compared with, and how; and the flash that its image is made for.
#[derive(Clone, Copy)]
pub struct Against<'m, 'i> {
    pub image: &'m Mounted<'i>,
    pub how: Comparing,
    pub flash: Flash,
}

/// Mounts what was made of a folder, and prints the lines.
fn compare_made<'m, 'i, E: Order, H: Host>(
    host: &mut H,
    made: &'i [u8],
    against: Against<'m, 'i>,
) -> Result<Found<'static>, Fault>
    ensures { DoesFrom (H.history host.old) (H.history host.new)
        (compares_made E.order (compared_with against.entry) made.now)
        (seen_as found_told result) }
{
    match mounted::<E>(host.alloc(), made, against.flash.geometry) {
        Ok(folder) => print_lines(host, &folder, against.image, against.how),
        Err(fault) => Err(fault),
    }
}

/// Makes in memory what lines make with these files. That takes the place of the bytes in `made`,
/// which its mount borrows.
fn compare_lines<'m, 'i, E: Order, H: Host>(
    host: &mut H,
    lines: Vec<Line<'_>>,
    files: &HostFiles,
    against: Against<'m, 'i>,
    made: &'i mut Vec<u8>,
) -> Result<Found<'static>, Fault>
    ensures { DoesFrom (H.history host.old) (H.history host.new)
        (compares_lines E.order (compared_with against.entry) (part_contents files.now)
        lines.entry.items) (seen_as found_told result) }
{
    let of = match numbered::<E>(host.alloc(), lines, files) {
        Ok(of) => of,
        Err(fault) => return Err(fault),
    };
    match make_in_memory::<E>(host.alloc(), against.flash, &of) {
        Ok(bytes) => {
            *made = bytes;
            compare_made::<E, H>(host, made.as_slice(), against)
        }
        Err(fault) => Err(fault),
    }
}

/// Reads the lines of a listing's text, and the files that they name. `before` has those that were
/// read before.
fn compare_text<'m, 'i, E: Order, H: FilesHost>(
    host: &mut H,
    before: HostFiles,
    text: &[u8],
    against: Against<'m, 'i>,
    made: &'i mut Vec<u8>,
) -> Result<Found<'static>, Fault>
    ensures { DoesFrom (H.history host.old) (H.history host.new)
        (compares_text E.order (compared_with against.entry) before text.now)
        (seen_as found_told result) }
{
    let lines = match read_lines(host.alloc(), text) {
        Ok(lines) => lines,
        Err(fault) => return Err(fault),
    };
    match load_named(host, &lines, before) {
        Ok(files) => compare_lines::<E, H>(host, lines, &files, against, made),
        Err(fault) => Err(fault),
    }
}

/// Compares a folder that was read whole with a mount. The bytes of its image take the place of
/// those in `made`.
pub fn compare_listed<'m, 'i, E: Order, H: FilesHost>(
    host: &mut H,
    listed: Listed,
    against: Against<'m, 'i>,
    made: &'i mut Vec<u8>,
) -> Result<Found<'static>, Fault>
    ensures { DoesFrom (H.history host.old) (H.history host.new)
        (writes_listed (compares_text E.order (compared_with against.entry)) listed)
        (seen_as found_told result) }
{
    let Listed {
        text,
        left_out,
        files,
    } = listed;
    let before = files.into_parts();
    match compare_text::<E, H>(host, before, text.as_slice(), against, made) {
        Ok(found) => Ok(found_with(left_out, found)),
        Err(fault) => Err(fault),
    }
}
