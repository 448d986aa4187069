//! Notes on the weak nodes of an image that is written.
ghost use Rattle.std.specs.Prelude.{◌≡◌, ◌≢◌, IsFalse, IfOk, length};
ghost use Rattle.jlog.specs.View.{mount_of, flash_of_start};
ghost use Rattle.jedge.specs.Acts.{seen_as};
ghost use Rattle.jmakes.specs.Notes.{AreTakenOn, AreWeakNotes, TakesNotes, no_notes};
ghost use Rattle.jmakes.specs.Seen.{notes_seen};

use jcuts::{CutsFault, Held, Telling, put_cuts};
use jedge::fault::Fault;
use jlog::{SessionFault, Start};
use jnode::Order;
use jsteps::Op;
use std::alloc::{AllocError, Global};

/// Notes on weak nodes, and on how many they are.
#[derive(Drop)]
pub struct Notes {
    pub text: Vec<u8>,
    pub weak: u64,
}

impl Notes {
    /// None.
    fn new(alloc: Global) -> Notes
        ensures { notes_seen result ≡ no_notes }
    {
        Notes {
            text: Vec::new(alloc),
            weak: 0,
        }
    }
}

/// Whether memory was wanting.
fn is_of_memory(fault: SessionFault) -> bool
    ensures { IsFalse result → fault ≢ SessionFault.OutOfMemory }
{
    match fault {
        SessionFault::OutOfMemory => true,
        _ => false,
    }
}

/// The notes on operations on a mounted image. Where one of them is not accepted there are none,
/// since writing them tells why.
fn notes_of<E: Order>(
    alloc: Global,
    start: &Start<'_, '_, E>,
    ops: &[Op<'_>],
    lines: &[usize],
) -> Result<Notes, AllocError>
    requires { length lines.now ≡ length ops.now }
    ensures { IfOk result (λ notes.
        AreTakenOn E.order (flash_of_start start.now) (mount_of start.now) ops.now
        → AreWeakNotes E.order (flash_of_start start.now) (mount_of start.now).image ops.now
        (notes_seen notes)) }
{
    let mut held = Held::new(alloc);
    match put_cuts::<E, Held>(alloc, start, Telling::WeakNotes, ops, lines, &mut held) {
        Ok(weak) => Ok(Notes {
            text: held.bytes,
            weak: weak as u64,
        }),
        Err(CutsFault::Output) => Err(AllocError),
        Err(
            CutsFault::Session {
                fault,
                line,
                blocks,
            },
        ) => {
            let _ = (line, blocks);
            if is_of_memory(fault) {
                Err(AllocError)
            } else {
                Ok(Notes::new(alloc))
            }
        }
    }
}

/// The same, if they are asked for.
pub fn notes_on<E: Order>(
    alloc: Global,
    start: &Start<'_, '_, E>,
    ops: &[Op<'_>],
    lines: &[usize],
    asked: bool,
) -> Result<Notes, Fault>
    requires { length lines.now ≡ length ops.now }
    ensures { TakesNotes asked E.order (flash_of_start start.now) (mount_of start.now) ops.now
        (seen_as notes_seen result) }
{
    if !asked {
        return Ok(Notes::new(alloc));
    }
    match notes_of::<E>(alloc, start, ops, lines) {
        Ok(notes) => Ok(notes),
        Err(_) => Err(Fault::OutOfMemory),
    }
}
