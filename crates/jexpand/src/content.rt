//! The bytes that a compressed node stands for.

ghost use Rattle.std.specs.Prelude.{◌≡◌, Some, None, Err, IfErr, OnOk};
ghost use Rattle.jcompr.specs.Answer.{IsDataFaultOf};
ghost use Rattle.jcompr.specs.Content.{decompressed_of};
ghost use Rattle.jexpand.specs.Expanded.{unpacked, node_content};

use flashbase::Part;
use jcompr::{DataFault, Method, decompress};
use jnode::CompressedNode;
use std::alloc::Global;

/// Puts what data give by a method in place of the bytes in a buffer.
fn unpack(
    alloc: Global,
    method: Method,
    packed: &[u8],
    size: usize,
    content: &mut Vec<u8>,
) -> Result<(), DataFault>
    ensures ok { OnOk result (unpacked size packed.now method ≡ Some content.new.items) }
    ensures err { IfErr result (IsDataFaultOf (unpacked size packed.now method)) }
{
    content.clear();
    decompress(alloc, method, packed, size, content)?;
    if content.len() != size {
        return Err(DataFault::Wrong);
    }
    Ok(())
}

/// The same of a part, whose missing bytes are made first.
fn unpack_part(
    alloc: Global,
    method: Method,
    packed: &Part<'_>,
    size: usize,
    content: &mut Vec<u8>,
) -> Result<(), DataFault>
    ensures ok { OnOk result (unpacked size packed.now method ≡ Some content.new.items) }
    ensures err { IfErr result (IsDataFaultOf (unpacked size packed.now method)) }
{
    let present = packed.present();
    if present.len() == packed.len() {
        return unpack(alloc, method, present, size, content);
    }
    let mut whole = Vec::with_capacity(alloc, packed.len())?;
    packed.put_onto(&mut whole);
    unpack(alloc, method, &whole, size, content)
}

/// Puts the bytes that a compressed node gives for its range in place of those in a buffer.
pub(crate) fn fill_content(
    alloc: Global,
    node: &CompressedNode<'_>,
    content: &mut Vec<u8>,
) -> Result<(), DataFault>
    ensures ok { OnOk result (node_content node.now ≡ Some content.new.items) }
    ensures err { IfErr result (IsDataFaultOf (node_content node.now)) }
{
    if node.dsize == 0 {
        content.clear();
        return Ok(());
    }
    match Method::of(node.compr) {
        Some(method) => unpack_part(alloc, method, &node.data, node.dsize as usize, content),
        None => Err(DataFault::Wrong),
    }
}
