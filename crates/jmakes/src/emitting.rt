//! The file of an image is made: a base, and what operations make behind it, go to it.
ghost use Rattle.std.specs.Prelude.{◌≡◌, ℕ, List};
ghost use Rattle.std.specs.Io.KnownBytes.{Appends};
ghost use Rattle.jlog.specs.View.{flash_of_start, mount_of, written_flash};
ghost use Rattle.jedge.specs.Acts.{DoesFrom, seen_as};
ghost use Rattle.jmakes.specs.Making.{makes, wanted_file};
ghost use Rattle.jmakes.specs.Seen.{emission_seen, image_seen};
ghost use Rattle.jmakes.specs.Writing.{Emits, all_ran};

use crate::host::FileHost;
use crate::wanted::{CloseFault, Wanted};
use flashbase::Sink;
use jbuild::{EmitFault, Emitted, emit_from};
use jedge::fault::Fault;
use jlog::Start;
use jnode::Order;
use jsteps::Op;
use std::alloc::Global;

/// What went out to a file, and how it ended.
#[derive(Drop)]
pub struct ImageMade {
    pub emitted: Result<Emitted, EmitFault>,
    pub closed: Result<(), CloseFault>,
}

/// Whether all operations were run.
fn all_ran(emitted: &Result<Emitted, EmitFault>) -> bool
    ensures { result ≡ all_ran (emission_seen emitted.now) }
{
    match emitted {
        Ok(emitted) => emitted.report.stopped.is_none(),
        Err(_) => false,
    }
}

/// Puts out a base and what operations on it make.
fn put_ops<E: Order, S: Sink>(
    alloc: Global,
    start: &Start<'_, '_, E>,
    ops: &[Op<'_>],
    sink: S,
) -> (S, Result<Emitted, EmitFault>)
    requires { S.failures sink ≡ 0 }
    ensures { (text : List ℕ) × Appends (S.taken sink) (S.taken result.0) text
        × Emits (written_flash E.order (flash_of_start start.now)) (mount_of start.now).image
        ops.now text (S.failures result.0) (emission_seen result.1) }
{
    match emit_from(alloc, start, ops, sink) {
        Ok((sink, emitted)) => (sink, Ok(emitted)),
        Err((fault, sink)) => (sink, Err(fault)),
    }
}

/// Makes the file of an image.
pub(crate) fn make_image<E: Order, H: FileHost>(
    host: &mut H,
    file: Wanted<'_>,
    start: &Start<'_, '_, E>,
    ops: &[Op<'_>],
) -> Result<ImageMade, Fault>
    ensures { DoesFrom (H.history host.old) (H.history host.new)
        (makes (wanted_file file.entry)
        (Emits (written_flash E.order (flash_of_start start.now)) (mount_of start.now).image
        ops.now) all_ran) (seen_as image_seen result) }
{
    let (opened, made) = match host.create(file) {
        Ok(created) => created,
        Err(fault) => return Err(fault),
    };
    let (made, emitted) = put_ops::<E, H::Made>(host.alloc(), start, ops, made);
    let well = all_ran(&emitted);
    let closed = host.close_file(opened, made, file.filling, well);
    Ok(ImageMade { emitted, closed })
}
