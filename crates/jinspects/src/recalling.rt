//! `cat --ino`: what an object was, by its nodes up to a version.
ghost use Rattle.std.specs.Prelude.{◌≡◌};
ghost use Rattle.flashbase.specs.Sinks.{change_of};
ghost use Rattle.jscan.specs.Scans.{IsScannable};
ghost use Rattle.jedge.specs.Acts.{DoesFrom, PutsBy, prints, seen_as};
ghost use Rattle.jedge.specs.Told.{found_told};
ghost use Rattle.jinspects.specs.Inspecting.{cat_inode_act};
ghost use Rattle.jinspects.specs.Recalling.{Recalls, recall_fault, recalled_told};

use flashbase::Sink;
use jcommand::Options;
use jedge::damage::findings_noted;
use jedge::fault::Fault;
use jedge::found::{Found, finished};
use jedge::host::Host;
use jedge::mounting::view_refusal;
use jedge::reading::load;
use jnode::Order;
use jreport::{ImageFault, ProgramFault, found_in};
use jscan::Geometry;
use jversions::{Revision, RevisionFault, put_revision};
use std::alloc::Global;

/// What the command comes to, where all was put.
fn recalled<E: Order>(image: &[u8], geometry: Geometry) -> Found<'static>
    requires { IsScannable geometry.block image.now }
    ensures { found_told result ≡ recalled_told E.order geometry.block image.now }
{
    Found {
        counted: 0,
        note: findings_noted(found_in::<E>(image, geometry).noted),
    }
}

/// A fault of the library, as the command ends by it.
fn recall_fault(ino: u32, fault: RevisionFault) -> Fault
    ensures { result ≡ recall_fault ino fault }
{
    match fault {
        RevisionFault::Refused(why) => Fault::Refused(view_refusal(why)),
        RevisionFault::NoNode => Fault::Refused(ProgramFault::Image(ImageFault::NoInode { ino })),
        RevisionFault::NoContent => {
            Fault::Refused(ProgramFault::Image(ImageFault::NoContent { ino }))
        }
        RevisionFault::Output => Fault::Output,
    }
}

/// Puts the bytes of a revision, and answers what the command comes to.
fn put_recalled<E: Order, T: Sink>(
    alloc: Global,
    image: &[u8],
    geometry: Geometry,
    revision: Revision,
    sink: &mut T,
) -> Result<Found<'static>, Fault>
    ensures { PutsBy (Recalls revision E.order geometry.block
        (recalled_told E.order geometry.block image.now) image.now)
        (change_of T.Sink sink.old sink.new) (seen_as found_told result) }
{
    match put_revision::<E, T>(alloc, image, geometry, revision, sink) {
        Ok(()) => Ok(recalled::<E>(image, geometry)),
        Err(fault) => Err(recall_fault(revision.ino, fault)),
    }
}

/// Prints the bytes of a revision.
fn print_revision<E: Order, H: Host>(
    host: &mut H,
    image: &[u8],
    geometry: Geometry,
    revision: Revision,
) -> Result<Found<'static>, Fault>
    ensures { DoesFrom (H.history host.old) (H.history host.new)
        (prints (Recalls revision E.order geometry.block
        (recalled_told E.order geometry.block image.now) image.now)) (seen_as found_told result) }
{
    let mut out = match host.output() {
        Ok(out) => out,
        Err(fault) => return Err(fault),
    };
    let answer = put_recalled::<E, _>(host.alloc(), image, geometry, revision, &mut out);
    let closed = host.close(out);
    finished(answer, closed)
}

/// `cat --ino`.
pub fn cat_inode<E: Order, H: Host>(
    host: &mut H,
    options: Options,
    revision: Revision,
    image: &str,
) -> Result<Found<'static>, Fault>
    requires { options.endian ≡ E.order }
    ensures { DoesFrom (H.history host.old) (H.history host.new)
        (cat_inode_act options revision image.now) (seen_as found_told result) }
{
    let image = match load(host, image) {
        Ok(image) => image,
        Err(fault) => return Err(fault),
    };
    print_revision::<E, H>(host, image.as_slice(), options.geometry, revision)
}
