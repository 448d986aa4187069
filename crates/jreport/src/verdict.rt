//! The verdict of `check`: whether the image mounts, which entries dangle, and whether its tree has
//! its shape.

ghost use Rattle.std.specs.Prelude.{◌≡◌, ◌||◌, ℕ, List, [], ◌++◌, ◌∷◌, IfSome};
ghost use Rattle.std.specs.List.{flat_map};
ghost use Rattle.flashbase.specs.Sinks.{PutsTo, change_of};
ghost use Rattle.jnode.specs.declared.order.Endian.{Endian};
ghost use Rattle.jscan.specs.PartialScans.{IsScanOf};
ghost use Rattle.jscan.specs.Scans.{IsScannable};
ghost use Rattle.jmount.specs.Mounts.{Answers};
ghost use Rattle.jreport.specs.Faults.{mount_text};
ghost use Rattle.jreport.specs.Verdict.{dangling_line, dangling_start, is_broken, ok_line, refused_line, shape_if, shape_line, shape_text, PutsMounted, PutsVerdict};

use crate::faults::{ProgramFault, push_mount};
use flashbase::{DeviceFault, Sink};
use jline::{LineBuffer, put_escaped, put_text};
use jmount::{MountFault, Mounted, mount, mount_scanned};
use jnode::Order;
use jscan::{Geometry, PartialScan};
use std::alloc::Global;

/// What comes before the name of a dangling entry.
#[tactic(auto, unfolding(crate::specs::Verdict::dangling_start))]
fn write_start(line: &mut LineBuffer, pino: u32, ino: u32)
    requires { line.old ≡ [] }
    ensures { line.new ≡ dangling_start pino ino }
{
    line.push_text(b"dangling pino ");
    line.push_decimal(u64::from(pino));
    line.push_text(b" ino ");
    line.push_decimal(u64::from(ino));
    line.push_text(b" name ");
}

/// Puts the line of a dangling entry.
fn put_dangling<T: Sink>(sink: &mut T, pino: u32, name: &[u8], ino: u32) -> Result<(), DeviceFault>
    ensures { PutsTo T.Sink sink.old sink.new (dangling_line (pino, name.now, ino)) result }
{
    let mut line = LineBuffer::new();
    write_start(&mut line, pino, ino);
    put_text(sink, line.as_slice())?;
    put_escaped(sink, name)?;
    put_text(sink, b"\n")
}

/// Puts the line of a mount that went well.
#[tactic(auto, unfolding(crate::specs::Verdict::ok_line))]
fn put_ok<T: Sink>(sink: &mut T, read_only: bool) -> Result<(), DeviceFault>
    ensures { PutsTo T.Sink sink.old sink.new (ok_line read_only) result }
{
    if read_only {
        put_text(sink, b"mount ok read-only\n")
    } else {
        put_text(sink, b"mount ok\n")
    }
}

/// The text of a fault, and a line feed.
fn write_fault(line: &mut LineBuffer, fault: MountFault)
    requires { line.old ≡ [] }
    ensures { line.new ≡ mount_text fault ++ 10 ∷ [] }
{
    push_mount(line, fault);
    line.push(b'\n');
}

/// Puts the line of a mount that was refused.
fn put_refused<T: Sink>(sink: &mut T, fault: MountFault) -> Result<(), DeviceFault>
    ensures { PutsTo T.Sink sink.old sink.new (refused_line fault) result }
{
    let mut line = LineBuffer::new();
    write_fault(&mut line, fault);
    put_text(sink, b"mount refused ")?;
    put_text(sink, line.as_slice())
}

/// Puts the lines of these dangling entries.
fn put_all_dangling<T: Sink>(sink: &mut T, entries: &[(u32, &[u8], u32)]) -> Result<(), DeviceFault>
    ensures { PutsTo T.Sink sink.old sink.new
        (flat_map (λ x. dangling_line (x.0, x.1.now, x.2)) entries.now) result }
{
    for (pino, name, ino) in entries {
        put_dangling(sink, *pino, name, *ino)?;
    }
    Ok(())
}

/// Whether a tree has its shape, where that is asked.
fn shape_if(mounted: &Mounted<'_>, asked: bool) -> Option<bool>
    ensures { result ≡ shape_if asked mounted.now }
{
    if asked {
        Some(mounted.has_shape())
    } else {
        None
    }
}

/// Puts the line of a shape.
#[tactic(auto, unfolding(crate::specs::Verdict::shape_line))]
fn put_shape_line<T: Sink>(sink: &mut T, shape: bool) -> Result<(), DeviceFault>
    ensures { PutsTo T.Sink sink.old sink.new (shape_line shape) result }
{
    if shape {
        put_text(sink, b"shape ok\n")
    } else {
        put_text(sink, b"shape broken\n")
    }
}

/// The same where the shape was asked for, and else nothing.
fn put_shape<T: Sink>(sink: &mut T, shape: Option<bool>) -> Result<(), DeviceFault>
    ensures { PutsTo T.Sink sink.old sink.new (shape_text shape) result }
{
    match shape {
        Some(shape) => put_shape_line(sink, shape),
        None => Ok(()),
    }
}

/// Whether an entry dangles, or the shape was asked for and is broken.
fn is_wrong(dangles: bool, shape: Option<bool>) -> bool
    ensures { result ≡ dangles || is_broken shape }
{
    dangles || matches!(shape, Some(false))
}

/// Puts what a mount says, and answers whether an entry dangles or the shape, where it is asked
/// for, is broken.
///
/// `OutOfMemory`: for the list of the dangling entries. Nothing was put then.
pub fn put_mounted<T: Sink>(
    alloc: Global,
    mounted: &Mounted<'_>,
    asked: bool,
    sink: &mut T,
) -> Result<bool, ProgramFault<'static>>
    ensures { PutsMounted asked mounted.now (change_of T.Sink sink.old sink.new) result }
{
    let dangling = mounted.dangling(alloc)?;
    let shape = shape_if(mounted, asked);
    put_ok(sink, mounted.read_only())?;
    put_all_dangling(sink, &dangling)?;
    put_shape(sink, shape)?;
    Ok(is_wrong(!dangling.is_empty(), shape))
}

/// Puts the verdict on what a mount answered, and answers whether it says that something is wrong.
fn put_verdict<T: Sink>(
    alloc: Global,
    answer: Result<Mounted<'_>, MountFault>,
    asked: bool,
    sink: &mut T,
) -> Result<bool, ProgramFault<'static>>
    ensures { (e : Endian) (size : ℕ) (image : List ℕ) → Answers e size image answer.entry
        → PutsVerdict e size image asked (change_of T.Sink sink.old sink.new) result }
{
    match answer {
        Ok(mounted) => put_mounted(alloc, &mounted, asked, sink),
        Err(MountFault::OutOfMemory) => Err(ProgramFault::Mount(MountFault::OutOfMemory)),
        Err(fault) => {
            put_refused(sink, fault)?;
            Ok(true)
        }
    }
}

/// Puts the verdict on an image, with its shape where `shape` asks for it. Answers whether the
/// mount was refused, an entry dangles, or the shape is broken.
///
/// `Mount(OutOfMemory)`: memory ran out in the mount, which is no verdict. `OutOfMemory`: for the
/// list of the dangling entries. Nothing was put then.
pub fn verdict_lines<E: Order, T: Sink>(
    alloc: Global,
    image: &[u8],
    geometry: Geometry,
    shape: bool,
    sink: &mut T,
) -> Result<bool, ProgramFault<'static>>
    ensures { PutsVerdict E.order geometry.block image.now shape
        (change_of T.Sink sink.old sink.new) result }
{
    put_verdict(alloc, mount::<E>(alloc, image, geometry), shape, sink)
}

/// Mounts an image by its scan. Where there is none, memory ran out in it.
fn mount_partial<'a>(
    alloc: Global,
    image: &'a [u8],
    partial: Option<PartialScan<'a>>,
) -> Result<Mounted<'a>, MountFault>
    requires scanned { IfSome partial
        (λ scan. (e : Endian) × (size : ℕ) × IsScanOf e size image.now scan) }
    ensures { (e : Endian) (size : ℕ) → IsScannable size image.now
        → IfSome partial.entry (IsScanOf e size image.now)
        → Answers e size image.now result }
{
    match partial {
        Some(scan) => mount_scanned(alloc, image, scan),
        None => Err(MountFault::OutOfMemory),
    }
}

/// The same of an image by its scan. Where there is none, memory ran out in it.
pub fn scanned_verdict<T: Sink>(
    alloc: Global,
    image: &[u8],
    partial: Option<PartialScan<'_>>,
    shape: bool,
    sink: &mut T,
) -> Result<bool, ProgramFault<'static>>
    requires scanned { IfSome partial
        (λ scan. (e : Endian) × (size : ℕ) × IsScanOf e size image.now scan) }
    ensures { (e : Endian) (size : ℕ) → IsScannable size image.now
        → IfSome partial.entry (IsScanOf e size image.now)
        → PutsVerdict e size image.now shape (change_of T.Sink sink.old sink.new) result }
{
    put_verdict(alloc, mount_partial(alloc, image, partial), shape, sink)
}
