//! The verdict of `check --decompress`: whether an image mounts through its compression, which
//! entries dangle, and whether its tree has its shape.
ghost use Rattle.std.specs.Prelude.{◌≡◌, ◌||◌, ℕ, Bool, List, Ok, Err};
ghost use Rattle.flashbase.specs.Sinks.{change_of};
ghost use Rattle.jnode.specs.declared.order.Endian.{Endian};
ghost use Rattle.jthrough.specs.MountsThrough.{AnswersThrough};
ghost use Rattle.jedge.specs.Acts.{PutsBy};
ghost use Rattle.jinspects.specs.ThroughVerdict.{JudgesThrough, has_findings};

use crate::refusal::put_refused;
use flashbase::Sink;
use jedge::fault::Fault;
use jedge::mounting::view_refusal;
use jmount::{MountFault, Mounted};
use jnode::Order;
use jreport::{ProgramFault, put_mounted};
use jscan::Geometry;
use jthrough::{ViewFault, mount_through};
use std::alloc::Global;

/// Whether a mounted image has a finding, or what it says is that something is wrong.
fn is_found(mounted: &Mounted<'_>, bad: bool) -> bool
    ensures { result ≡ has_findings mounted.now || bad }
{
    !mounted.findings().is_empty() || bad
}

/// Puts what a mount says, and answers whether the image has a finding or that says that something
/// is wrong.
fn judge_mounted<T: Sink>(
    alloc: Global,
    mounted: &Mounted<'_>,
    shape: bool,
    sink: &mut T,
) -> Result<bool, Fault>
    ensures { (e : Endian) (size : ℕ) (image : List ℕ)
        → AnswersThrough e size image (Ok mounted.now)
        → PutsBy (JudgesThrough e size shape image) (change_of T.Sink sink.old sink.new) result }
{
    match put_mounted(alloc, mounted, shape, sink) {
        Ok(bad) => Ok(is_found(mounted, bad)),
        Err(fault) => Err(Fault::of(fault)),
    }
}

/// Puts why an image does not mount. Where memory ran out that is not known, and nothing is put.
fn judge_refused<T: Sink>(why: ViewFault, sink: &mut T) -> Result<bool, Fault>
    ensures { (e : Endian) (size : ℕ) (shape : Bool) (image : List ℕ)
        → AnswersThrough e size image (Err why)
        → PutsBy (JudgesThrough e size shape image) (change_of T.Sink sink.old sink.new) result }
{
    if let ViewFault::OutOfMemory = why {
        return Err(Fault::Refused(ProgramFault::Mount(MountFault::OutOfMemory)));
    }
    match put_refused(&view_refusal(why), sink) {
        Ok(()) => Ok(true),
        Err(_) => Err(Fault::Output),
    }
}

/// Puts the verdict on an image, with its shape where `shape` asks for it. Answers whether the
/// mount was refused, the image has a finding, an entry dangles, or the shape is broken.
pub(crate) fn put_verdict<E: Order, T: Sink>(
    alloc: Global,
    image: &[u8],
    geometry: Geometry,
    shape: bool,
    sink: &mut T,
) -> Result<bool, Fault>
    ensures { PutsBy (JudgesThrough E.order geometry.block shape image.now)
        (change_of T.Sink sink.old sink.new) result }
{
    let mut contents = Vec::new(alloc);
    match mount_through::<E>(alloc, image, geometry, &mut contents) {
        Ok(mounted) => judge_mounted(alloc, &mounted, shape, sink),
        Err(why) => judge_refused(why, sink),
    }
}
