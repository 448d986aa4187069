//! Writing the image of nodes that stay, of those that an image gives.

ghost use Rattle.std.specs.Prelude.{◌≡◌, ◌≤◌, ◌<◌, ◌⊎◌, None, Ok, Err, IfErr, OnErr, OnOk, IsTrue, length, vec_capacity};
ghost use Rattle.jnode.specs.Writing.{canonical, IsWritable};
ghost use Rattle.jscan.specs.Image.{is_block_size};
ghost use Rattle.jexpand.specs.declared.fault.ConvertFault.TheVariants.{OutOfMemory};
ghost use Rattle.jconvert.specs.Apart.{WritesNodes};
ghost use Rattle.jconvert.specs.Converting.{least_written};
ghost use Rattle.jconvert.specs.Putting.{IsUnput, PutsForm};
ghost use Rattle.jconvert.specs.Tallying.{IsCursor};
ghost use Rattle.flashbase.specs.Sinks.{change_of};

use crate::writing::put_form;
use flashbase::Sink;
use jexpand::ConvertFault;
use jnode::{NodeRef, Order, write_entry, write_inode};
use jscan::Geometry;
use std::alloc::Global;

/// Writes a node over the bytes of a buffer.
fn write_form<E: Order>(node: &NodeRef<'_>, form: &mut Vec<u8>) -> Result<(), ConvertFault>
    ensures ok { OnOk result (form.new.items ≡ canonical E.order node.now) }
    ensures writable { OnOk result (IsWritable node.now) }
    ensures memory { IfErr result (λ fault. fault ≡ OutOfMemory) }
    ensures full { OnErr result (¬ IsWritable node.now
        ⊎ (vec_capacity form.old < length (canonical E.order node.now))) }
{
    form.clear();
    let written = match node {
        NodeRef::Entry(entry) => write_entry::<E>(form, entry),
        NodeRef::Inode(inode) => write_inode::<E>(form, inode),
    };
    match written {
        Ok(()) => Ok(()),
        Err(_) => Err(ConvertFault::OutOfMemory),
    }
}

/// Puts a node at its place after `from`, and answers where the next one may begin.
fn put_one<E: Order, S: Sink>(
    sink: &mut S,
    geometry: Geometry,
    from: u32,
    node: &NodeRef<'_>,
    form: &mut Vec<u8>,
) -> Result<u32, ConvertFault>
    requires readable { IsTrue (is_block_size geometry.block) }
    requires written { least_written ≤ geometry.block }
    requires cursor { IsCursor geometry.block from }
    ensures puts { PutsForm E.order geometry.block from (canonical E.order node.now)
        (change_of S.Sink sink.old sink.new) result }
    ensures full { result ≡ Err OutOfMemory
        → IsUnput E.order geometry.block from (vec_capacity form.old) node.now }
{
    match write_form::<E>(node, form) {
        Ok(()) => put_form::<E, S>(sink, geometry, from, form),
        Err(_) => Err(ConvertFault::OutOfMemory),
    }
}

/// Puts an image of these nodes, from the start of an erased flash on, and answers its length.
///
/// # Errors
/// `Sink`: it failed after a beginning. `OutOfMemory`: after a beginning too, or before a byte.
pub fn write_nodes<E: Order, S: Sink>(
    alloc: Global,
    nodes: &[NodeRef<'_>],
    geometry: Geometry,
    sink: &mut S,
) -> Result<u64, ConvertFault>
    requires readable { IsTrue (is_block_size geometry.block) }
    requires written { least_written ≤ geometry.block }
    ensures { WritesNodes E.order geometry.block nodes.now
        (change_of S.Sink sink.old sink.new) result }
{
    let mut form = Vec::new(alloc);
    let mut from = 0;
    for node in nodes {
        match put_one::<E, S>(sink, geometry, from, node, &mut form) {
            Ok(next) => from = next,
            Err(fault) => return Err(fault),
        }
    }
    Ok(u64::from(from))
}
