//! Putting the forms of steps.

ghost use Rattle.std.specs.Prelude.{◌≡◌, ◌≤◌, ◌+◌, ◌*◌, ◌%◌, IsTrue, OnOk, [], ◌∷◌, ◌++◌, vec_len, vec_capacity, length};
ghost use Rattle.flashbase.specs.Sinks.{change_of};
ghost use Rattle.jnode.specs.Writing.{is_writable};
ghost use Rattle.jlog.specs.Places.{is_writable_flash, fit};
ghost use Rattle.jlog.specs.Running.{log_at, CanWriteIn};
ghost use Rattle.jsteps.specs.Nodes.{node_of, nodes_of};
ghost use Rattle.jpacked.specs.Forms.{AreMadeOf, IsMadeOf, form_with, node_with_stream, step_forms};
ghost use Rattle.jpacked.specs.Writing.{PutsForms};

use crate::stream::Stream;
use flashbase::{Part, Sink, pad4, put_all};
use jlog::{Blocks, Place, Stop, node_of, place_after, put_erased, put_gap, write_node};
use jnode::{CompressedNode, InodeNode, NodeRef, Order, WriteFault, write_compressed};
use jsteps::{Index, Step, advance};

/// The number of ZLIB.
const ZLIB: u8 = 6;

/// Where a log goes on, and its sink.
#[derive(Drop)]
pub(crate) struct Log<S: Sink> {
    pub cursor: u32,
    pub index: Index,
    /// The bytes of one node.
    pub buffer: Vec<u8>,
    pub sink: S,
}

/// The compressed node of the same fields with these data.
fn node_with_stream<'a>(inode: &InodeNode<'_>, stream: &'a [u8]) -> CompressedNode<'a>
    ensures { result ≡ node_with_stream inode.now stream.now }
{
    CompressedNode {
        ino: inode.ino,
        version: inode.version,
        mode: inode.mode,
        uid: inode.uid,
        gid: inode.gid,
        isize: inode.isize,
        atime: inode.atime,
        mtime: inode.mtime,
        ctime: inode.ctime,
        offset: inode.offset,
        dsize: inode.dsize,
        compr: ZLIB,
        data: Part::new(stream, 0),
    }
}

/// Writes the form of a node over the bytes of a buffer: with packed data a compressed node, and
/// with none the node's own form.
///
/// # Errors
/// The form is not written, for want of memory, and then the buffer may hold anything.
pub fn write_form<E: Order>(
    out: &mut Vec<u8>,
    node: &NodeRef<'_>,
    stream: &[u8],
) -> Result<(), WriteFault>
    requires { IsTrue (is_writable node.now) }
    ensures { OnOk result (out.new.items ≡ form_with E.order node.now stream.now) }
{
    match node {
        NodeRef::Inode(inode) => {
            if stream.is_empty() {
                return write_node::<E>(out, node);
            }
            out.clear();
            write_compressed::<E>(out, &node_with_stream(inode, stream))
        }
        NodeRef::Entry(_) => write_node::<E>(out, node),
    }
}

/// Appends a place for which there is room.
pub fn push_place(places: &mut Vec<Place>, addr: u32, totlen: u32)
    requires { vec_len places.old + 1 ≤ vec_capacity places.old }
    ensures items { places.new.items
        ≡ places.old.items ++ record { addr = addr; totlen = totlen } ∷ [] }
    ensures len { vec_len places.new ≡ vec_len places.old + 1 }
    ensures capacity { vec_capacity places.old ≤ vec_capacity places.new }
{
    let done = places.push(Place { addr, totlen });
    done.unwrap();
}

/// Puts the form of a step's node from the cursor on, and goes on after it.
fn put_step<E: Order, S: Sink>(
    log: &mut Log<S>,
    places: &mut Vec<Place>,
    flash: Blocks,
    step: &Step<'_>,
    stream: &[u8],
) -> Result<(), Stop>
    requires flash { IsTrue (is_writable_flash flash.size flash.count) }
    requires within { log.old.cursor ≤ flash.count * flash.size }
    requires word { log.old.cursor % 4 ≡ 0 }
    requires step { CanWriteIn flash.size E.order log.old.index (step.now ∷ []) }
    requires made { IsMadeOf E.order (node_of log.old.index step.now) stream.now }
    requires room { vec_len places.old + 1 ≤ vec_capacity places.old }
    ensures puts { PutsForms E.order flash.size
        (log_at log.old.cursor log.old.index places.old.items) (step.now ∷ [])
        (form_with E.order (node_of log.old.index step.now) stream.now ∷ [])
        (log_at log.new.cursor log.new.index places.new.items)
        (change_of S.Sink log.old.sink log.new.sink) result }
    ensures len { vec_len places.new ≤ vec_len places.old + 1 }
    ensures capacity { vec_capacity places.old ≤ vec_capacity places.new }
{
    let node = node_of(&log.index, step);
    if write_form::<E>(&mut log.buffer, &node, stream).is_err() {
        return Err(Stop::Unbegun);
    }
    if advance(&mut log.index, step).is_err() {
        return Err(Stop::Unbegun);
    }
    let len = log.buffer.len();
    let at = place_after(flash.size, log.cursor, len as u32);
    if put_gap::<E, S>(&mut log.sink, flash.size, log.cursor, at).is_err() {
        return Err(Stop::Sink);
    }
    if put_all(&mut log.sink, &log.buffer).is_err() {
        return Err(Stop::Sink);
    }
    push_place(places, at, len as u32);
    let end = pad4(len as u32) as u32;
    if put_erased(&mut log.sink, end as usize - len).is_err() {
        return Err(Stop::Sink);
    }
    log.cursor = at + end;
    Ok(())
}

/// Puts the forms of steps from the cursor on, one after another.
pub(crate) fn put_steps<E: Order, S: Sink>(
    log: &mut Log<S>,
    places: &mut Vec<Place>,
    flash: Blocks,
    steps: &[Step<'_>],
    streams: &[Stream],
) -> Result<(), Stop>
    requires flash { IsTrue (is_writable_flash flash.size flash.count) }
    requires within { log.old.cursor ≤ flash.count * flash.size }
    requires word { log.old.cursor % 4 ≡ 0 }
    requires steps { CanWriteIn flash.size E.order log.old.index steps.now }
    requires made { AreMadeOf E.order (nodes_of log.old.index steps.now) streams.now }
    requires space { IsTrue (fit flash.size flash.count log.old.cursor
        (step_forms E.order log.old.index steps.now streams.now)) }
    requires room { vec_len places.old + length steps.now ≤ vec_capacity places.old }
    ensures { PutsForms E.order flash.size
        (log_at log.old.cursor log.old.index places.old.items) steps.now
        (step_forms E.order log.old.index steps.now streams.now)
        (log_at log.new.cursor log.new.index places.new.items)
        (change_of S.Sink log.old.sink log.new.sink) result }
{
    let mut i = 0;
    while i < steps.len() {
        let stream = streams[i].as_slice();
        match put_step::<E, S>(log, places, flash, &steps[i], stream) {
            Ok(()) => i += 1,
            Err(Stop::Sink) => return Err(Stop::Sink),
            Err(Stop::Begun) => return Err(Stop::Begun),
            Err(Stop::Unbegun) => {
                if i == 0 {
                    return Err(Stop::Unbegun);
                }
                return Err(Stop::Begun);
            }
        }
    }
    Ok(())
}
