//! A log that is written packed, operation by operation.

ghost use Rattle.std.specs.Prelude.{◌≡◌, ◌≢◌, ◌<◌, ◌≤◌, ◌+◌, ℕ, slice_index, is_some, IsTrue, IsFalse, Err, IfOk, IfErr, IsOk};
ghost use Rattle.jsteps.specs.Nodes.{indexed};
ghost use Rattle.jscan.specs.Pages.{page_size};
ghost use Rattle.jlog.specs.Places.{is_writable_flash};
ghost use Rattle.jlog.specs.Resuming.{resumes};
ghost use Rattle.jlog.specs.Session.{IsGoing};
ghost use Rattle.jrow.specs.Row.{blank_blocks};
ghost use Rattle.jview.specs.Through.{greatest_contents, IsMountThroughOf};
ghost use Rattle.jlog.specs.declared.fault.SessionFault.TheVariants.{OutOfMemory};
ghost use Rattle.jpacked.specs.Forms.{is_packed};

use crate::accepting::{Room, Taken, accept};
use crate::choice::NodeForms;
use crate::content::contents_len;
use crate::packing::Packing;
use crate::start::start_at;
use crate::writing::{Log, put_steps};
use flashbase::Sink;
use jlog::{Applied, Blocks, Flash, Place, RunReport, SessionFault, Stop};
use jmount::Mounted;
use jnode::{INODE_LEN, Order};
use jrow::Row;
use jscan::Page;
use jsteps::{Index, Op};
use std::alloc::{AllocError, Global};
use std::marker::PhantomData;
use std::mem;

/// A log that goes on from an image mounted through its compression, and packs what it writes, or
/// puts each node in its own form. It keeps nothing of the image but its index.
#[derive(Drop)]
pub struct PackingSession<E: Order, S: Sink> {
    block: u32,
    blocks: u32,
    page: Page,
    log: Log<S>,
    /// How many bytes the contents of the compressed nodes have, of the base and of those put.
    held: u32,
    /// An operation was written in part.
    broken: bool,
    /// Where data are packed, if nodes are.
    packing: Option<Packing>,
    order: PhantomData<E>,
    ghost flash: { IsTrue (is_writable_flash block blocks) },
    ghost holds: { page_size page + 80 ≤ block },
    ghost going: { IsFalse broken → IsGoing block blocks log.cursor log.index },
    ghost few: { held ≤ greatest_contents },
}

/// Bytes have the width of their type.
fn known_bytes(bytes: &[u8])
    ensures { (i : ℕ) → slice_index bytes.now i < 256 }
{
    let _known = bytes.len();
}

/// Where data are packed, if nodes are.
fn packing_for(alloc: Global, forms: NodeForms) -> Result<Option<Packing>, AllocError>
    ensures { IfOk result (λ packing. is_some packing ≡ is_packed forms) }
{
    if forms.is_packed() {
        let packing = Packing::new(alloc)?;
        Ok(Some(packing))
    } else {
        Ok(None)
    }
}

/// What a session has beside its sink: the index of a mounted image, a buffer for a node, and where
/// data are packed, if nodes are.
///
/// # Errors
/// Out of memory.
pub fn index_and_buffer(
    alloc: Global,
    mounted: &Mounted<'_>,
    page: Page,
    forms: NodeForms,
) -> Result<(Index, Vec<u8>, Option<Packing>), AllocError>
    ensures index { IfOk result (λ parts. parts.0 ≡ indexed mounted.now) }
    ensures packs { IfOk result (λ parts. is_some parts.2 ≡ is_packed forms) }
{
    let index = Index::of(alloc, mounted)?;
    let buffer = Vec::with_capacity(alloc, INODE_LEN + page.size() as usize)?;
    let packing = packing_for(alloc, forms)?;
    Ok((index, buffer, packing))
}

impl<E: Order, S: Sink> PackingSession<E, S> {
    ghost use Rattle.std.specs.Prelude.{List, [], ◌∷◌};
    ghost use Rattle.jpacked.specs.View.{block_size_of, blocks_of, page_of, cursor_of, index_of_log, held_of, is_broken, packs_of, sink_of, base_of_mount, IsBegunOn, IsBegunInRow, IsSessionOf, AppliesTo, HasApplied, HasRun};
    ghost use Rattle.jlog.specs.declared.report.Place.{Place};

    /// Goes on from an image mounted through its compression, on a flash, from the block on from
    /// which all of it is blank, in these forms. Nothing is put, and a refusal hands the sink back.
    /// It is in `E`'s order and of the geometry that the image was mounted with.
    ///
    /// # Errors
    /// `ReadOnly`, `Geometry` and `OutOfMemory` as a session of `jlog` answers them, with the sink.
    pub fn resume(
        alloc: Global,
        mounted: &Mounted<'_>,
        flash: Flash,
        forms: NodeForms,
        sink: S,
    ) -> Result<PackingSession<E, S>, (SessionFault, S)>
        requires { IsMountThroughOf E.order flash.geometry.block mounted.now }
        ensures begun { IfOk result (IsBegunOn mounted.now flash sink) }
        ensures packs { IfOk result (λ session. packs_of session ≡ is_packed forms) }
        ensures fault { IfErr result (λ refused. refused.0 ≢ OutOfMemory
            → resumes E.order flash mounted.now ≡ Err refused.0) }
        ensures memory { IfErr result (λ refused. refused.0 ≡ OutOfMemory
            → IsOk (resumes E.order flash mounted.now)) }
        ensures back { IfErr result (λ refused. refused.1 ≡ sink) }
    {
        let cursor = match start_at::<E>(mounted, flash.geometry, flash.blocks, flash.page) {
            Ok(cursor) => cursor,
            Err(fault) => return Err((fault, sink)),
        };
        known_bytes(mounted.image());
        match PackingSession::<E, S>::begin(alloc, mounted, flash, cursor, forms, sink) {
            Ok(session) => Ok(session),
            Err((error, sink)) => Err((SessionFault::from(error), sink)),
        }
    }

    /// Goes on from an image mounted through its compression, in the row of its blank blocks,
    /// wherever they lie: the log is that of the flash with these blocks last, and the addresses of
    /// what is put are those of that flash ([`Row::address`] says where they are). Nothing is put,
    /// and a refusal hands the sink back. It is in `E`'s order and of the geometry that the image
    /// was mounted with, and the row is that of its blank blocks on this flash.
    ///
    /// # Errors
    /// As [`PackingSession::resume`].
    pub fn resume_in_row(
        alloc: Global,
        mounted: &Mounted<'_>,
        flash: Flash,
        row: &Row,
        forms: NodeForms,
        sink: S,
    ) -> Result<PackingSession<E, S>, (SessionFault, S)>
        requires through { IsMountThroughOf E.order flash.geometry.block mounted.now }
        requires row { row.now
            ≡ blank_blocks E.order flash.geometry.block flash.blocks (base_of_mount mounted.now) }
        ensures begun { IfOk result (IsBegunInRow mounted.now flash sink) }
        ensures packs { IfOk result (λ session. packs_of session ≡ is_packed forms) }
        ensures fault { IfErr result (λ refused. refused.0 ≢ OutOfMemory
            → resumes E.order flash mounted.now ≡ Err refused.0) }
        ensures memory { IfErr result (λ refused. refused.0 ≡ OutOfMemory
            → IsOk (resumes E.order flash mounted.now)) }
        ensures back { IfErr result (λ refused. refused.1 ≡ sink) }
    {
        let _tail = match start_at::<E>(mounted, flash.geometry, flash.blocks, flash.page) {
            Ok(tail) => tail,
            Err(fault) => return Err((fault, sink)),
        };
        known_bytes(mounted.image());
        let cursor = row.start(flash.geometry, flash.blocks);
        match PackingSession::<E, S>::begin(alloc, mounted, flash, cursor, forms, sink) {
            Ok(session) => Ok(session),
            Err((error, sink)) => Err((SessionFault::from(error), sink)),
        }
    }

    /// Begins a log at an address where it may go on.
    fn begin(
        alloc: Global,
        mounted: &Mounted<'_>,
        flash: Flash,
        cursor: u32,
        forms: NodeForms,
        sink: S,
    ) -> Result<PackingSession<E, S>, (AllocError, S)>
        requires through { IsMountThroughOf E.order flash.geometry.block mounted.now }
        requires writable { IsTrue (is_writable_flash flash.geometry.block flash.blocks) }
        requires holds { page_size flash.page + 80 ≤ flash.geometry.block }
        requires going { IsGoing flash.geometry.block flash.blocks cursor (indexed mounted.now) }
        ensures begun { IfOk result (IsSessionOf mounted.now flash cursor sink) }
        ensures packs { IfOk result (λ session. packs_of session ≡ is_packed forms) }
        ensures back { IfErr result (λ refused. refused.1 ≡ sink) }
    {
        let (index, buffer, packing) = match index_and_buffer(alloc, mounted, flash.page, forms) {
            Ok(parts) => parts,
            Err(error) => return Err((error, sink)),
        };
        Ok(PackingSession {
            block: flash.geometry.block,
            blocks: flash.blocks,
            page: flash.page,
            log: Log {
                cursor,
                index,
                buffer,
                sink,
            },
            held: contents_len::<E>(mounted.image(), flash.geometry),
            broken: false,
            packing,
            order: PhantomData,
        })
    }

    /// The address where writing goes on, while the session is not broken.
    pub fn cursor(&self) -> u32
        ensures { result ≡ cursor_of self.now }
    {
        self.log.cursor
    }

    /// How many bytes the contents of the compressed nodes have, of the base and of those put.
    pub fn held(&self) -> u32
        ensures { result ≡ held_of self.now }
    {
        self.held
    }

    /// Goes on with another sink, and gives back the one that it had. Nothing is put.
    pub fn replace_sink(&mut self, sink: S) -> S
        ensures back { result ≡ sink_of self.old }
        ensures sink { sink_of self.new ≡ sink }
        ensures block { block_size_of self.new ≡ block_size_of self.old }
        ensures blocks { blocks_of self.new ≡ blocks_of self.old }
        ensures page { page_of self.new ≡ page_of self.old }
        ensures cursor { cursor_of self.new ≡ cursor_of self.old }
        ensures index { index_of_log self.new ≡ index_of_log self.old }
        ensures held { held_of self.new ≡ held_of self.old }
        ensures whole { is_broken self.new ≡ is_broken self.old }
        ensures packs { packs_of self.new ≡ packs_of self.old }
    {
        mem::replace(&mut self.log.sink, sink)
    }

    /// Gives the sink back, from a broken session too. Nothing is put.
    pub fn finish(self) -> S
        ensures { result ≡ sink_of self }
    {
        let PackingSession { log, .. } = self;
        let Log { sink, .. } = log;
        sink
    }

    /// Applies one operation: forms of its nodes are put, each at its place.
    ///
    /// # Errors
    /// `Refused`, `Full`, and `OutOfMemory` before a byte was put: nothing is put, and the session
    /// is as it was. `Sink`, and `OutOfMemory` after a byte: a beginning of the operation's bytes
    /// was put, and the session is broken. `Broken` from a broken session.
    pub fn apply(&mut self, alloc: Global, op: &Op<'_>) -> Result<Applied, SessionFault>
        ensures block { block_size_of self.new ≡ block_size_of self.old }
        ensures blocks { blocks_of self.new ≡ blocks_of self.old }
        ensures page { page_of self.new ≡ page_of self.old }
        ensures packs { packs_of self.new ≡ packs_of self.old }
        ensures applies { HasApplied self.old op.now self.new result }
    {
        op.known();
        let mut places = Vec::new(alloc);
        match self.apply_onto(alloc, &mut places, op) {
            Ok(()) => Ok(Applied { places }),
            Err(fault) => Err(fault),
        }
    }

    /// Applies operations in order, and stops at the first fault.
    pub fn run(&mut self, alloc: Global, ops: &[Op<'_>]) -> RunReport
        ensures block { block_size_of self.new ≡ block_size_of self.old }
        ensures blocks { blocks_of self.new ≡ blocks_of self.old }
        ensures page { page_of self.new ≡ page_of self.old }
        ensures packs { packs_of self.new ≡ packs_of self.old }
        ensures runs { HasRun self.old ops.now self.new result.accepted result.places.items
            result.stopped }
    {
        let mut places = Vec::new(alloc);
        let mut accepted = 0;
        while accepted < ops.len() {
            let op = &ops[accepted];
            op.known();
            match self.apply_onto(alloc, &mut places, op) {
                Ok(()) => accepted += 1,
                Err(fault) => {
                    return RunReport {
                        accepted,
                        places,
                        stopped: Some(fault),
                    };
                }
            }
        }
        RunReport {
            accepted,
            places,
            stopped: None,
        }
    }

    /// Applies one operation, and appends the places of its nodes.
    fn apply_onto(
        &mut self,
        alloc: Global,
        places: &mut Vec<Place>,
        op: &Op<'_>,
    ) -> Result<(), SessionFault>
        ensures block { self.new.block ≡ self.old.block }
        ensures blocks { self.new.blocks ≡ self.old.blocks }
        ensures page { self.new.page ≡ self.old.page }
        ensures packs { is_some self.new.packing ≡ is_some self.old.packing }
        ensures applies { AppliesTo self.old op.now self.new places.old.items places.new.items
            result }
    {
        if self.broken {
            return Err(SessionFault::Broken);
        }
        op.known();
        let flash = Blocks {
            size: self.block,
            count: self.blocks,
        };
        let room = Room {
            flash,
            page: self.page,
            cursor: self.log.cursor,
            held: self.held,
        };
        let Taken { steps, chosen } = accept::<E>(
            alloc,
            &self.log.index,
            &room,
            op,
            &mut self.packing,
        )?;
        places.reserve(steps.len())?;
        match put_steps::<E, S>(&mut self.log, places, flash, &steps, &chosen.streams) {
            Ok(()) => {
                self.held = chosen.held;
                Ok(())
            }
            Err(Stop::Unbegun) => Err(SessionFault::OutOfMemory),
            Err(Stop::Begun) => {
                self.broken = true;
                Err(SessionFault::OutOfMemory)
            }
            Err(Stop::Sink) => {
                self.broken = true;
                Err(SessionFault::Sink)
            }
        }
    }
}
