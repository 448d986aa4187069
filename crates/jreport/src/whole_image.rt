//! What is put of an image in memory: by `check`, `cat` and `ls`.

ghost use Rattle.std.specs.Prelude.{◌≡◌, ◌↔◌, ◌||◌, nat_lt, IsFalse, IsErrOf, option_map};
ghost use Rattle.flashbase.specs.Sinks.{change_of};
ghost use Rattle.jscan.specs.Image.{is_block_size};
ghost use Rattle.jreport.specs.WholeImage.{PutsCheck, PutsFile, PutsListing, list_request};

use crate::faults::ProgramFault;
use crate::files::content;
use crate::notes::noted;
use crate::refusal::mount_or_tell;
use crate::report::report_and_scan;
use crate::tree_walk::lines_at;
use crate::verdict::scanned_verdict;
use flashbase::Sink;
use jnode::Order;
use jscan::{Geometry, PartialScan, ScanFault};
use std::alloc::Global;

/// Whether anything was found, in the report or by the mount.
fn is_any(findings: u64, bad: bool) -> bool
    ensures { result ≡ nat_lt 0 findings || bad }
{
    findings > 0 || bad
}

/// Puts the report of an image, and then the verdict on its mount, with the shape of its tree where
/// `shape` asks for it. Answers whether anything was found.
pub fn image_check<E: Order, T: Sink>(
    alloc: Global,
    image: &[u8],
    geometry: Geometry,
    shape: bool,
    sink: &mut T,
) -> Result<bool, ProgramFault<'static>>
    // The size of a block is judged before anything is put.
    ensures block_size { IsErrOf result (ProgramFault.Scan ScanFault.BlockSize)
        ↔ IsFalse (is_block_size geometry.block) }
    ensures unput { IsFalse (is_block_size geometry.block) → sink.new ≡ sink.old }
    ensures put { PutsCheck E.order geometry.block image.now shape
        (change_of T.Sink sink.old sink.new) result }
{
    if !geometry.is_readable() {
        return Err(ProgramFault::Scan(ScanFault::BlockSize));
    }
    let mut partial = Some(PartialScan::new(alloc));
    let findings = report_and_scan::<E, T>(image, geometry, sink, &mut partial)?;
    let bad = scanned_verdict(alloc, image, partial, shape, sink)?;
    Ok(is_any(findings, bad))
}

/// Puts the content of the regular file that a path names in an image. Answers how many findings of
/// damage, dirt or the other byte order the image has.
pub fn image_file<E: Order, T: Sink>(
    alloc: Global,
    image: &[u8],
    geometry: Geometry,
    path: &[u8],
    sink: &mut T,
) -> Result<u64, ProgramFault<'static>>
    ensures { PutsFile E.order geometry.block image.now path.now
        (change_of T.Sink sink.old sink.new) result }
{
    let mounted = mount_or_tell::<E>(alloc, image, geometry)?;
    content(&mounted, path, sink)?;
    Ok(noted(&mounted))
}

/// Puts a line for each object of an image's tree, or of the part of it that a path names. Answers
/// how many findings of damage, dirt or the other byte order the image has.
pub fn image_tree<E: Order, T: Sink>(
    alloc: Global,
    image: &[u8],
    geometry: Geometry,
    path: Option<&[u8]>,
    sink: &mut T,
) -> Result<u64, ProgramFault<'static>>
    ensures { PutsListing
        (list_request E.order geometry.block (option_map (λ p. p.now) path.entry)) image.now
        (change_of T.Sink sink.old sink.new) result }
{
    let tree = mount_or_tell::<E>(alloc, image, geometry)?;
    lines_at(alloc, &tree, path, sink)?;
    Ok(noted(&tree))
}
