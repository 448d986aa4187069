//! An image is written, and a line tells what the operations did.
ghost use Rattle.std.specs.Prelude.{◌≡◌, [], IfErr, IfOk, IfSome, Some, length, option_map, string_bytes};
ghost use Rattle.jbuild.specs.HostFiles.{part_contents};
ghost use Rattle.jlog.specs.View.{address_of, flash_of_start, mount_of};
ghost use Rattle.jmount.specs.Mounts.{IsMountOf};
ghost use Rattle.jedge.specs.Acts.{DoesFrom, seen_as};
ghost use Rattle.jedge.specs.Views.{viewed};
ghost use Rattle.jmakes.specs.Seen.{done_seen, image_to_write, note_seen, numbered_seen, told_seen};
ghost use Rattle.jmakes.specs.Writing.{IsStartedBehind, base_image, line_answer, prints_accepted, writes_from, writes_lines, writes_on};

use crate::asked::ImageToWrite;
use crate::base_note::{BaseNote, note_on};
use crate::emitting::make_image;
use crate::ending::{DoneOps, ended, plan_of};
use crate::host::FileHost;
use crate::notes::{Notes, notes_on};
use crate::numbered::{NumberedOps, numbered};
use flashbase::DeviceFault;
use jbuild::{HostFiles, put_accepted};
use jedge::fault::Fault;
use jedge::found::finished;
use jedge::host::Host;
use jedge::mounting::mounted;
use jedge::subject::Subject;
use jlisting::Line;
use jlog::{Flash, Start};
use jmount::Mounted;
use jnode::Order;
use jreport::{Plan, ProgramFault, Reason, cause_of};

/// What is noted of an image that was written: the note on its base, and those on its weak nodes.
#[derive(Drop)]
pub struct Written {
    pub note: Option<BaseNote>,
    pub weak: Notes,
}

/// The image of a base, or an empty one.
fn base_image(base: Option<&Subject>) -> &[u8]
    ensures { result.now ≡ base_image (option_map (λ subject. viewed subject.now) base.entry) }
{
    match base {
        Some(subject) => subject.image.as_slice(),
        None => &[],
    }
}

/// Where writing goes on behind a mounted image.
pub fn start_on<'m, 'a, E: Order>(
    mounted: &'m Mounted<'a>,
    flash: Flash,
) -> Result<Start<'m, 'a, E>, Fault>
    requires { IsMountOf E.order flash.geometry.block mounted.now }
    ensures goes_on { IsStartedBehind E.order flash mounted.now (seen_as address_of result) }
    ensures mount { IfOk result (λ start. mount_of start ≡ mounted.now) }
    ensures flash { IfOk result (λ start. flash_of_start start ≡ flash) }
{
    match Start::<E>::of(mounted, flash) {
        Ok(start) => Ok(start),
        Err(fault) => {
            let plan = Plan {
                geometry: flash.geometry,
                blocks: flash.blocks,
                page: flash.page,
                length: mounted.image().len(),
            };
            Err(Fault::Refused(ProgramFault::Session {
                fault,
                line: None,
                cause: cause_of(plan, fault, Reason::Other, None),
            }))
        }
    }
}

/// Memory for what is wanted when the file is made: its name, and the line that is printed.
pub fn take_memory<H: Host>(host: &mut H, name: &str) -> Result<(String, H::Output), Fault>
    ensures same { H.history host.new ≡ H.history host.old }
    ensures name { IfOk result (λ taken. string_bytes taken.0 ≡ name.now) }
    ensures sound { IfOk result (λ taken. H.Output.failures taken.1 ≡ 0) }
    ensures empty { IfOk result
        (λ taken. IfSome (H.history host.old) (λ _. H.Output.taken taken.1 ≡ Some [])) }
    ensures memory { IfErr result (λ fault. fault ≡ Fault.OutOfMemory) }
{
    match name.to_string(host.alloc()) {
        Ok(name) => match host.output() {
            Ok(out) => Ok((name, out)),
            Err(fault) => Err(fault),
        },
        Err(_) => Err(Fault::OutOfMemory),
    }
}

/// What it comes to when the line was put, or not.
fn line_answer(put: Result<(), DeviceFault>, written: Written) -> Result<Written, Fault>
    ensures { seen_as told_seen result ≡ line_answer (told_seen written) put }
{
    match put {
        Ok(()) => Ok(written),
        Err(_) => Err(Fault::Output),
    }
}

/// Prints the line on what was done.
fn print_accepted<H: Host>(
    host: &mut H,
    out: H::Output,
    from: u32,
    done: DoneOps,
    written: Written,
) -> Result<Written, Fault>
    requires sound { H.Output.failures out ≡ 0 }
    requires empty { IfSome (H.history host.old) (λ _. H.Output.taken out ≡ Some []) }
    ensures { DoesFrom (H.history host.old) (H.history host.new)
        (prints_accepted from (told_seen written) (done_seen done)) (seen_as told_seen result) }
{
    let mut out = out;
    let put = put_accepted(from, done.accepted, &done.places, &mut out);
    let closed = host.close(out);
    finished(line_answer(put, written), closed)
}

/// Writes operations to the file from an address on, and prints the line on them.
fn write_from<E: Order, H: FileHost>(
    host: &mut H,
    image: ImageToWrite<'_>,
    start: &Start<'_, '_, E>,
    of: &NumberedOps<'_>,
    written: Written,
) -> Result<Written, Fault>
    requires { flash_of_start start.now ≡ image.flash }
    ensures { DoesFrom (H.history host.old) (H.history host.new)
        (writes_from (image_to_write E.order image.entry) (mount_of start.now)
        (numbered_seen of.now) (address_of start.now) (told_seen written))
        (seen_as told_seen result) }
{
    let (name, out) = match take_memory(host, image.file.name) {
        Ok(taken) => taken,
        Err(fault) => return Err(fault),
    };
    let made = match make_image::<E, H>(host, image.file, start, &of.ops) {
        Ok(made) => made,
        Err(fault) => return Err(fault),
    };
    match ended(plan_of(start), &of.numbers, made, name) {
        Ok(done) => print_accepted(host, out, start.address(), done, written),
        Err(fault) => Err(fault),
    }
}

/// The same behind a mounted image, of which there may be a note.
fn write_on<E: Order, H: FileHost>(
    host: &mut H,
    image: ImageToWrite<'_>,
    note: Option<BaseNote>,
    mounted: &Mounted<'_>,
    of: &NumberedOps<'_>,
) -> Result<Written, Fault>
    requires mount { IsMountOf E.order image.flash.geometry.block mounted.now }
    requires numbered { length of.now.numbers.items ≡ length of.now.ops.items }
    ensures { DoesFrom (H.history host.old) (H.history host.new)
        (writes_on (image_to_write E.order image.entry) (note_seen note) mounted.now
        (numbered_seen of.now)) (seen_as told_seen result) }
{
    let start = match start_on::<E>(mounted, image.flash) {
        Ok(start) => start,
        Err(fault) => return Err(fault),
    };
    match notes_on::<E>(host.alloc(), &start, &of.ops, &of.numbers, image.weak) {
        Ok(weak) => write_from::<E, H>(host, image, &start, of, Written { note, weak }),
        Err(fault) => Err(fault),
    }
}

/// Writes the lines of a listing, with the bytes of the files that they name, on a base; on an
/// empty one if there is none.
pub fn write_lines<'b, 'a: 'b, E: Order, H: FileHost>(
    host: &mut H,
    image: ImageToWrite<'_>,
    base: Option<&Subject>,
    lines: Vec<Line<'a>>,
    files: &'b HostFiles,
) -> Result<Written, Fault>
    ensures { DoesFrom (H.history host.old) (H.history host.new)
        (writes_lines (image_to_write E.order image.entry)
        (option_map (λ subject. viewed subject.now) base.entry) (part_contents files.now)
        lines.entry.items) (seen_as told_seen result) }
{
    let of = match numbered::<E>(host.alloc(), lines, files) {
        Ok(of) => of,
        Err(fault) => return Err(fault),
    };
    let bytes = base_image(base);
    match mounted::<E>(host.alloc(), bytes, image.flash.geometry) {
        Ok(mounted) => {
            let note = note_on(base, &mounted);
            write_on::<E, H>(host, image, note, &mounted, &of)
        }
        Err(fault) => Err(fault),
    }
}
