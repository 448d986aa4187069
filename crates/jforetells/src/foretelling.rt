//! What stands after a stop of writing on an image that is mounted through its compression, or of
//! `update` on it, told of the operations of a listing.
ghost use Rattle.std.specs.Prelude.{◌≡◌, ◌≤◌, IsOk, None, length};
ghost use Rattle.flashbase.specs.Sinks.{change_of};
ghost use Rattle.jview.specs.Through.{IsMountThroughOf};
ghost use Rattle.jlog.specs.Resuming.{resumes};
ghost use Rattle.jpacked.specs.View.{base_of_mount};
ghost use Rattle.jcommand.specs.Parsed.{cuts_through_view, update_cuts_view};
ghost use Rattle.jedge.specs.Acts.{DoesFrom, PutsBy, prints, seen_as};
ghost use Rattle.jedge.specs.Told.{found_told};
ghost use Rattle.jreads.specs.CutTexts.{StartsOn, cut_cause};
ghost use Rattle.jforetells.specs.ForetoldTexts.{TellsForms, stops_found};
ghost use Rattle.jforetells.specs.Foretelling.{TellsPlanned, cuts_through_act, cuts_update_act, device_foretold, flash_foretold, foretells_base, foretells_mounted, foretells_text, foretold_asked, forms_foretold, plan_foretold, telling_foretold};
ghost use Rattle.jforetells.specs.UpdateTexts.{TellsRowForms};
ghost use Rattle.jcuts.specs.declared.lines.Telling.TheVariants.{Nodes};
ghost use Rattle.jscan.specs.Image.{greatest_image};

use crate::plan::{ForetoldPlan, flash_of};
use flashbase::Sink;
use jbuild::{HostFiles, operations};
use jcommand::{CutsThrough, UpdateCuts, blocks_asked};
use jcuts::{CutsFault, Telling};
use jdevice::DevicePlan;
use jedge::fault::Fault;
use jedge::found::{Found, finished};
use jedge::host::Host;
use jedge::mounting::mounted_as;
use jedge::reading::load;
use jhalts::put_halts;
use jlisting::Line;
use jlog::{Flash, SessionFault};
use jmount::Mounted;
use jnode::Order;
use jpacked::{NodeForms, start_at};
use jreads::cuts::{lines_of, load_base, numbers_of};
use jreads::files_host::FilesHost;
use jreads::named::load_listed;
use jreport::{Cause, Plan, ProgramFault, Reason, cause_of};
use jsteps::Op;
use jstops::{StopsPlan, put_stops};
use std::alloc::Global;

/// Why operations on a mounted image stop: the first limit that the flash does not keep.
fn cause_on(mounted: &Mounted<'_>, flash: Flash, fault: SessionFault) -> Cause
    ensures { result ≡ cut_cause flash (base_of_mount mounted.now) fault None }
{
    let plan = Plan {
        geometry: flash.geometry,
        blocks: flash.blocks,
        page: flash.page,
        length: mounted.image().len(),
    };
    cause_of(plan, fault, Reason::Other, None)
}

/// Whether writing goes on in a mounted image.
fn judge<E: Order>(mounted: &Mounted<'_>, flash: Flash) -> Result<(), Fault>
    ensures { StartsOn E.order flash mounted.now result }
{
    match start_at::<E>(mounted, flash.geometry, flash.blocks, flash.page) {
        Ok(_) => Ok(()),
        Err(fault) => Err(Fault::Refused(ProgramFault::Session {
            fault,
            line: None,
            cause: cause_on(mounted, flash, fault),
        })),
    }
}

/// What the command comes to, by what was put of operations on a mounted image.
fn stops_found(
    mounted: &Mounted<'_>,
    flash: Flash,
    put: Result<usize, CutsFault>,
) -> Result<Found<'static>, Fault>
    ensures { seen_as found_told result ≡ stops_found flash (base_of_mount mounted.now) put }
{
    match put {
        Ok(weak) => Ok(Found {
            counted: weak as u64,
            note: None,
        }),
        Err(CutsFault::Session { fault, line, .. }) => Err(Fault::Refused(ProgramFault::Session {
            fault,
            line,
            cause: cause_on(mounted, flash, fault),
        })),
        Err(CutsFault::Output) => Err(Fault::Output),
    }
}

/// Puts what stands after a stop, of operations from where a log goes on, with the numbers of their
/// lines.
#[tactic(none)]
fn put_told<E: Order, T: Sink>(
    alloc: Global,
    mounted: &Mounted<'_>,
    on: StopsPlan,
    ops: &[Op<'_>],
    lines: &[usize],
    sink: &mut T,
) -> Result<Found<'static>, Fault>
    requires through { IsMountThroughOf E.order on.flash.geometry.block mounted.now }
    requires goes_on { IsOk (resumes E.order on.flash mounted.now) }
    requires numbered { length lines.now ≡ length ops.now }
    ensures { PutsBy (TellsForms E.order on (base_of_mount mounted.now)
        (record { telling = on.telling; ops = ops.now; lines = lines.now }))
        (change_of T.Sink sink.old sink.new) (seen_as found_told result) }
{
    let put = put_stops::<E, T>(alloc, mounted, on, ops, lines, sink);
    stops_found(mounted, on.flash, put)
}

/// Puts what stands after a stop of `update`, of operations on a device's image.
#[tactic(none)]
fn put_updates<E: Order, T: Sink>(
    alloc: Global,
    mounted: &Mounted<'_>,
    on: DevicePlan,
    ops: &[Op<'_>],
    lines: &[usize],
    sink: &mut T,
) -> Result<Found<'static>, Fault>
    requires through { IsMountThroughOf E.order on.flash.geometry.block mounted.now }
    requires goes_on { IsOk (resumes E.order on.flash mounted.now) }
    requires numbered { length lines.now ≡ length ops.now }
    ensures { PutsBy (TellsRowForms E.order on mounted.now.image
        (record { telling = Nodes; ops = ops.now; lines = lines.now }))
        (change_of T.Sink sink.old sink.new) (seen_as found_told result) }
{
    let put = put_halts::<E, T>(alloc, mounted, on, ops, lines, sink);
    stops_found(mounted, on.flash, put)
}

/// Puts the one or the other.
#[tactic(none)]
fn put_planned<E: Order, T: Sink>(
    alloc: Global,
    mounted: &Mounted<'_>,
    on: ForetoldPlan,
    ops: &[Op<'_>],
    lines: &[usize],
    sink: &mut T,
) -> Result<Found<'static>, Fault>
    requires through { IsMountThroughOf E.order (flash_foretold on).geometry.block mounted.now }
    requires goes_on { IsOk (resumes E.order (flash_foretold on) mounted.now) }
    requires numbered { length lines.now ≡ length ops.now }
    ensures { PutsBy (TellsPlanned E.order on mounted.now.image
        (record { telling = telling_foretold on; ops = ops.now; lines = lines.now }))
        (change_of T.Sink sink.old sink.new) (seen_as found_told result) }
{
    match on {
        ForetoldPlan::Stops(on) => put_told::<E, T>(alloc, mounted, on, ops, lines, sink),
        ForetoldPlan::Halts(on) => put_updates::<E, T>(alloc, mounted, on, ops, lines, sink),
    }
}

/// Prints it.
fn print_told<E: Order, H: Host>(
    host: &mut H,
    mounted: &Mounted<'_>,
    on: ForetoldPlan,
    ops: &[Op<'_>],
    lines: &[usize],
) -> Result<Found<'static>, Fault>
    requires through { IsMountThroughOf E.order (flash_foretold on).geometry.block mounted.now }
    requires goes_on { IsOk (resumes E.order (flash_foretold on) mounted.now) }
    requires numbered { length lines.now ≡ length ops.now }
    ensures { DoesFrom (H.history host.old) (H.history host.new)
        (prints (TellsPlanned E.order on mounted.now.image
        (record { telling = telling_foretold on; ops = ops.now; lines = lines.now })))
        (seen_as found_told result) }
{
    let mut out = match host.output() {
        Ok(out) => out,
        Err(fault) => return Err(fault),
    };
    let answer = put_planned::<E, _>(host.alloc(), mounted, on, ops, lines, &mut out);
    let closed = host.close(out);
    finished(answer, closed)
}

/// Tells operations on a mounted image.
fn tell_mounted<E: Order, H: Host>(
    host: &mut H,
    mounted: &Mounted<'_>,
    on: ForetoldPlan,
    ops: &[Op<'_>],
    lines: &[usize],
) -> Result<Found<'static>, Fault>
    requires through { IsMountThroughOf E.order (flash_foretold on).geometry.block mounted.now }
    requires numbered { length lines.now ≡ length ops.now }
    ensures { DoesFrom (H.history host.old) (H.history host.new)
        (foretells_mounted E.order on
        (record { telling = telling_foretold on; ops = ops.now; lines = lines.now }) mounted.now)
        (seen_as found_told result) }
{
    match judge::<E>(mounted, flash_of(on)) {
        Ok(()) => print_told::<E, H>(host, mounted, on, ops, lines),
        Err(refused) => Err(refused),
    }
}

/// Tells the operations of lines on a base, with the bytes of the files that they name.
fn tell_lines<'p, 'b: 'p, E: Order, H: Host>(
    host: &mut H,
    on: ForetoldPlan,
    base: &[u8],
    lines: Vec<Line<'b>>,
    files: &'p HostFiles,
) -> Result<Found<'static>, Fault>
    ensures { DoesFrom (H.history host.old) (H.history host.new)
        (foretells_base E.order on base.now
        (foretold_asked E.order on files.entry.now lines.entry.items))
        (seen_as found_told result) }
{
    let numbers = match numbers_of(host.alloc(), lines.as_slice()) {
        Ok(numbers) => numbers,
        Err(fault) => return Err(fault),
    };
    let ops = match operations::<E>(host.alloc(), lines, files) {
        Ok(ops) => ops,
        Err(_) => return Err(Fault::OutOfMemory),
    };
    let mut contents = Vec::new(host.alloc());
    match mounted_as::<E>(
        host.alloc(),
        base,
        flash_of(on).geometry,
        true,
        &mut contents,
    ) {
        Ok(mounted) => {
            tell_mounted::<E, H>(host, &mounted, on, ops.as_slice(), numbers.as_slice())
        }
        Err(fault) => Err(fault),
    }
}

/// Tells the operations of a listing's text on a base.
fn tell_text<E: Order, H: FilesHost>(
    host: &mut H,
    on: ForetoldPlan,
    base: &[u8],
    text: &[u8],
) -> Result<Found<'static>, Fault>
    ensures { DoesFrom (H.history host.old) (H.history host.new)
        (foretells_text E.order on base.now text.now) (seen_as found_told result) }
{
    let lines = match lines_of(host.alloc(), text) {
        Ok(lines) => lines,
        Err(fault) => return Err(fault),
    };
    match load_listed(host, lines.as_slice()) {
        Ok(files) => tell_lines::<E, H>(host, on, base, lines, &files),
        Err(fault) => Err(fault),
    }
}

/// The forms of nodes that are told.
fn forms_of(compress: bool) -> NodeForms
    ensures { result ≡ forms_foretold compress }
{
    if compress {
        NodeForms::Packed
    } else {
        NodeForms::Own
    }
}

/// How operations are planned.
fn plan_of(asked: CutsThrough<&str>) -> StopsPlan
    ensures { result ≡ plan_foretold (cuts_through_view asked.entry) }
{
    StopsPlan {
        flash: Flash {
            geometry: asked.options.geometry,
            blocks: asked.blocks,
            page: asked.page,
        },
        forms: forms_of(asked.compress),
        telling: Telling::Nodes,
    }
}

/// `cuts` of an image that is mounted through its compression, or of nodes that are compressed.
pub fn cuts_through<E: Order, H: FilesHost>(
    host: &mut H,
    asked: CutsThrough<&str>,
) -> Result<Found<'static>, Fault>
    ensures { DoesFrom (H.history host.old) (H.history host.new)
        (cuts_through_act E.order (cuts_through_view asked.entry)) (seen_as found_told result) }
{
    let on = ForetoldPlan::Stops(plan_of(asked));
    let base = match load_base(host, asked.on) {
        Ok(base) => base,
        Err(fault) => return Err(fault),
    };
    match load(host, asked.listing) {
        Ok(text) => tell_text::<E, H>(host, on, base.as_slice(), text.as_slice()),
        Err(fault) => Err(fault),
    }
}

/// How `update` would write a listing to an image.
fn device_of(asked: UpdateCuts<&str>, image: &[u8]) -> DevicePlan
    requires { length image.now ≤ greatest_image }
    ensures { result ≡ device_foretold (update_cuts_view asked.entry) image.now }
{
    let geometry = asked.options.geometry;
    let blocks = blocks_asked(asked.blocks, geometry, image);
    let flash = Flash {
        geometry,
        blocks,
        page: asked.page,
    };
    DevicePlan {
        flash,
        plain: asked.plain,
        tail: asked.tail,
    }
}

/// `cuts --update`.
pub fn cuts_update<E: Order, H: FilesHost>(
    host: &mut H,
    asked: UpdateCuts<&str>,
) -> Result<Found<'static>, Fault>
    ensures { DoesFrom (H.history host.old) (H.history host.new)
        (cuts_update_act E.order (update_cuts_view asked.entry)) (seen_as found_told result) }
{
    let image = match load(host, asked.image) {
        Ok(image) => image,
        Err(fault) => return Err(fault),
    };
    match load(host, asked.listing) {
        Ok(text) => {
            let bytes = image.as_slice();
            let on = ForetoldPlan::Halts(device_of(asked, bytes));
            tell_text::<E, H>(host, on, bytes, text.as_slice())
        }
        Err(fault) => Err(fault),
    }
}
