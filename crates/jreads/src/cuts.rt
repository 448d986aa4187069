//! `cuts`: what stands after a stop of writing, told of the operations of a listing.
ghost use Rattle.std.specs.Prelude.{◌≡◌, IfErr, IfOk, OnOk, IsOk, Option, Err, length, map, option_map};
ghost use Rattle.flashbase.specs.Sinks.{change_of};
ghost use Rattle.jmount.specs.Mounts.{IsMountOf};
ghost use Rattle.jlog.specs.View.{flash_of_start, mount_of};
ghost use Rattle.jlisting.specs.declared.line.Line.{Line};
ghost use Rattle.jcuts.specs.Cuts.{PutsCuts};
ghost use Rattle.jcuts.specs.declared.lines.Telling.TheVariants.{Nodes};
ghost use Rattle.jedge.specs.Acts.{DoesFrom, PutsBy, prints, seen_as};
ghost use Rattle.jedge.specs.Told.{found_told};
ghost use Rattle.jreads.specs.CutTexts.{ReadsLines, StartsOn, TellsCuts, blocks_known, cut_cause, cuts_asked, cuts_found};
ghost use Rattle.jreads.specs.Cutting.{cuts_act, cuts_base, cuts_mounted, cuts_text, loads_base};

use crate::files_host::FilesHost;
use crate::named::load_listed;
use flashbase::Sink;
use jbuild::{HostFiles, operations};
use jcommand::Cuts;
use jcuts::{CutsFault, Telling, put_cuts};
use jedge::fault::Fault;
use jedge::found::{Found, finished};
use jedge::host::Host;
use jedge::mounting::mounted;
use jedge::reading::load;
use jlisting::{Line, ListingFault, listing};
use jlog::{Flash, SessionFault, Start};
use jmount::Mounted;
use jnode::Order;
use jreport::{Cause, Plan, ProgramFault, Reason, cause_of};
use jsteps::Op;
use std::alloc::{AllocError, Global};

/// What is told of blocks, where memory did not run out for it.
fn known_blocks(told: Result<Option<u32>, AllocError>) -> Option<u32>
    ensures { result ≡ blocks_known told }
{
    match told {
        Ok(blocks) => blocks,
        Err(_) => None,
    }
}

/// Why operations on a mounted image stop: the first limit that the flash does not keep, or
/// `blocks`, how many hold the operation that lacks room.
fn cut_cause(mounted: &Mounted<'_>, flash: Flash, fault: SessionFault, blocks: Option<u32>) -> Cause
    ensures { result ≡ cut_cause flash mounted.now.image fault blocks }
{
    let plan = Plan {
        geometry: flash.geometry,
        blocks: flash.blocks,
        page: flash.page,
        length: mounted.image().len(),
    };
    cause_of(plan, fault, Reason::Other, blocks)
}

/// What a command comes to, by what was put of operations on a mounted image.
fn cuts_found(
    mounted: &Mounted<'_>,
    flash: Flash,
    put: Result<usize, CutsFault>,
) -> Result<Found<'static>, Fault>
    ensures { seen_as found_told result ≡ cuts_found flash mounted.now.image put }
{
    match put {
        Ok(weak) => Ok(Found {
            counted: weak as u64,
            note: None,
        }),
        Err(
            CutsFault::Session {
                fault,
                line,
                blocks,
            },
        ) => Err(Fault::Refused(ProgramFault::Session {
            fault,
            line,
            cause: cut_cause(mounted, flash, fault, known_blocks(blocks)),
        })),
        Err(CutsFault::Output) => Err(Fault::Output),
    }
}

/// Puts what stands after a stop, of operations from where a log goes on, with the numbers of their
/// lines.
#[tactic(none)]
fn put_told<E: Order, T: Sink>(
    alloc: Global,
    start: &Start<'_, '_, E>,
    ops: &[Op<'_>],
    lines: &[usize],
    sink: &mut T,
) -> Result<Found<'static>, Fault>
    requires { length lines.now ≡ length ops.now }
    ensures { PutsBy (TellsCuts E.order (flash_of_start start.now) (mount_of start.now).image
        (record { telling = Nodes; ops = ops.now; lines = lines.now }))
        (change_of T.Sink sink.old sink.new) (seen_as found_told result) }
{
    let put = put_cuts::<E, T>(alloc, start, Telling::Nodes, ops, lines, sink);
    cuts_found(start.mounted(), start.flash(), put)
}

/// Prints it.
fn print_told<E: Order, H: Host>(
    host: &mut H,
    start: &Start<'_, '_, E>,
    ops: &[Op<'_>],
    lines: &[usize],
) -> Result<Found<'static>, Fault>
    requires { length lines.now ≡ length ops.now }
    ensures { DoesFrom (H.history host.old) (H.history host.new)
        (prints (TellsCuts E.order (flash_of_start start.now) (mount_of start.now).image
        (record { telling = Nodes; ops = ops.now; lines = lines.now })))
        (seen_as found_told result) }
{
    let mut out = match host.output() {
        Ok(out) => out,
        Err(fault) => return Err(fault),
    };
    let answer = put_told::<E, _>(host.alloc(), start, ops, lines, &mut out);
    let closed = host.close(out);
    finished(answer, closed)
}

/// Where writing goes on in a mounted image, or why it does not.
fn start_on<'m, 'a, E: Order>(
    mounted: &'m Mounted<'a>,
    flash: Flash,
) -> Result<Start<'m, 'a, E>, Fault>
    requires { IsMountOf E.order flash.geometry.block mounted.now }
    ensures mount { IfOk result (λ start. mount_of start ≡ mounted.now) }
    ensures flash { IfOk result (λ start. flash_of_start start ≡ flash) }
    ensures starts { StartsOn E.order flash mounted.now result }
{
    match Start::<E>::of(mounted, flash) {
        Ok(start) => Ok(start),
        Err(fault) => Err(Fault::Refused(ProgramFault::Session {
            fault,
            line: None,
            cause: cut_cause(mounted, flash, fault, None),
        })),
    }
}

/// Tells operations on a mounted image.
fn tell_mounted<E: Order, H: Host>(
    host: &mut H,
    mounted: &Mounted<'_>,
    flash: Flash,
    ops: &[Op<'_>],
    lines: &[usize],
) -> Result<Found<'static>, Fault>
    requires mount { IsMountOf E.order flash.geometry.block mounted.now }
    requires numbered { length lines.now ≡ length ops.now }
    ensures { DoesFrom (H.history host.old) (H.history host.new)
        (cuts_mounted E.order flash
        (record { telling = Nodes; ops = ops.now; lines = lines.now }) mounted.now)
        (seen_as found_told result) }
{
    match start_on::<E>(mounted, flash) {
        Ok(start) => print_told::<E, H>(host, &start, ops, lines),
        Err(fault) => Err(fault),
    }
}

/// The numbers of lines.
pub fn numbers_of(alloc: Global, lines: &[Line<'_>]) -> Result<Vec<usize>, Fault>
    ensures numbers { IfOk result
        (λ numbers. numbers.items ≡ map (λ line. line.number) lines.now) }
    ensures memory { IfErr result (λ fault. fault ≡ Fault.OutOfMemory) }
{
    match lines.iter().map(|line| line.number).collect(alloc) {
        Ok(numbers) => Ok(numbers),
        Err(_) => Err(Fault::OutOfMemory),
    }
}

/// Tells the operations of lines on a base, with the bytes of the files that they name.
fn tell_lines<'p, 'b: 'p, E: Order, H: Host>(
    host: &mut H,
    flash: Flash,
    base: &[u8],
    lines: Vec<Line<'b>>,
    files: &'p HostFiles,
) -> Result<Found<'static>, Fault>
    ensures { DoesFrom (H.history host.old) (H.history host.new)
        (cuts_base E.order flash base.now (cuts_asked E.order files.entry.now lines.entry.items))
        (seen_as found_told result) }
{
    let numbers = match numbers_of(host.alloc(), lines.as_slice()) {
        Ok(numbers) => numbers,
        Err(fault) => return Err(fault),
    };
    let ops = match operations::<E>(host.alloc(), lines, files) {
        Ok(ops) => ops,
        Err(_) => return Err(Fault::OutOfMemory),
    };
    match mounted::<E>(host.alloc(), base, flash.geometry) {
        Ok(mounted) => {
            tell_mounted::<E, H>(host, &mounted, flash, ops.as_slice(), numbers.as_slice())
        }
        Err(fault) => Err(fault),
    }
}

/// The lines of a listing.
pub fn lines_of(alloc: Global, text: &[u8]) -> Result<Vec<Line<'_>>, Fault>
    ensures { ReadsLines text.now (seen_as (λ lines. lines.items) result) }
{
    match listing(alloc, text) {
        Ok(lines) => Ok(lines),
        Err(ListingFault::Line(bad)) => Err(Fault::Refused(ProgramFault::Listing(bad))),
        Err(ListingFault::OutOfMemory) => Err(Fault::OutOfMemory),
    }
}

/// Tells the operations of a listing's text on a base.
fn tell_text<E: Order, H: FilesHost>(
    host: &mut H,
    flash: Flash,
    base: &[u8],
    text: &[u8],
) -> Result<Found<'static>, Fault>
    ensures { DoesFrom (H.history host.old) (H.history host.new)
        (cuts_text E.order flash base.now text.now) (seen_as found_told result) }
{
    let lines = match lines_of(host.alloc(), text) {
        Ok(lines) => lines,
        Err(fault) => return Err(fault),
    };
    match load_listed(host, lines.as_slice()) {
        Ok(files) => tell_lines::<E, H>(host, flash, base, lines, &files),
        Err(fault) => Err(fault),
    }
}

/// The image that is gone on from, if one is given.
pub fn load_base<H: Host>(host: &mut H, on: Option<&str>) -> Result<Vec<u8>, Fault>
    ensures { DoesFrom (H.history host.old) (H.history host.new)
        (loads_base (option_map (λ name. name.now) on.entry))
        (seen_as (λ base. base.items) result) }
{
    match on {
        Some(name) => load(host, name),
        None => Ok(Vec::new(host.alloc())),
    }
}

/// `cuts`.
pub fn cuts<E: Order, H: FilesHost>(
    host: &mut H,
    asked: Cuts<&str>,
) -> Result<Found<'static>, Fault>
    requires { asked.options.endian ≡ E.order }
    ensures { DoesFrom (H.history host.old) (H.history host.new)
        (cuts_act asked.entry.options asked.entry.blocks asked.entry.page
        (option_map (λ name. name.now) asked.entry.on) asked.entry.listing.now)
        (seen_as found_told result) }
{
    let flash = Flash {
        geometry: asked.options.geometry,
        blocks: asked.blocks,
        page: asked.page,
    };
    let base = match load_base(host, asked.on) {
        Ok(base) => base,
        Err(fault) => return Err(fault),
    };
    match load(host, asked.listing) {
        Ok(text) => tell_text::<E, H>(host, flash, base.as_slice(), text.as_slice()),
        Err(fault) => Err(fault),
    }
}
